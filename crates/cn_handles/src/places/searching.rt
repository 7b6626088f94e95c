//! Searches for places, row by row. What a search finds is a lane or nothing, by which of both it looks for.

ghost use Rattle.std.specs.Arc.{arc_value};
ghost use Rattle.std.specs.Prelude.{◌≡◌, ◌≤◌, ◌<◌, IfErr, IfOk, IfSome, length};
ghost use Rattle.cn_handles.specs.Looking.{GoesOn, IsNewSearch, IsFromPlaceOf, IsWithin};
ghost use Rattle.cn_handles.specs.Placing.{IsFound, IsPlaceOf, IsSharedRowOf};

use super::{FloorWithPlaces, ROWS};
use crate::places::lane_from_place::LaneFromPlace;
use crate::places::place::Place;
use crate::places::reading_rows::{ReadRow, read_row};
use crate::places::row::Counts;
use crate::places::searches::{EmptyGroup, EmptyRow, MOST_JOINS, Search};
use crate::places::turns::{Found, take_from};
use cn_floor::Floor;
use counted_slot::{FREE, PRESENT};

/// Goes on with a search in a row until it finds a place, which is then its finder's own: its number, and what stood
/// there.
///
/// # Errors
/// The search, if there is none.
fn search_row(
    read: &ReadRow,
    counts: &Counts,
    floor: &Floor<'static>,
    mut search: Search,
) -> Result<(usize, Found, Search), Search>
    requires row { IsSharedRowOf floor.now read.now.shared × (read.now.at ≡ search.on.row) }
    requires state { search.state < 2 }
    requires few { search.found < MOST_JOINS }
    ensures found { IfOk result (λ r. (r.0 < length (arc_value read.now.shared.row).places.items)
        × IsFound floor.now search.state r.1) }
    ensures ok { IfOk result (λ r. GoesOn 1 search r.2 × (r.2.on.row ≡ search.on.row)) }
    ensures err { IfErr result (λ s. GoesOn 0 search s × (s.on.row ≡ search.on.row)
        × (length (arc_value read.now.shared.row).places.items ≤ s.on.place)) }
{
    let places = read.row().places.len();
    for passed in search.on().place..places {
        let at = search.on().place;
        if at >= places {
            return Err(search);
        }
        if let Some(none) = EmptyGroup::of(read, counts, at, search.state()) {
            search = search.pass_group(none);
            continue;
        }
        match take_from(read, at, search.state(), floor) {
            Ok(found) => return Ok((at, found, search.pass_found())),
            Err(none) => search = search.pass(none),
        }
    }
    Err(search)
}

impl FloorWithPlaces {
    /// A search for lanes that were handed back.
    pub(crate) fn new_search(&self) -> Search
        ensures { IsNewSearch 1 0 result }
    {
        Search::new(PRESENT, self)
    }

    /// Goes on with a search until it finds a place, which is then its finder's own: what stood there, and the place.
    ///
    /// # Errors
    /// The search, if there is none.
    fn search(&self, mut search: Search) -> Result<(Found, Place, Search), Search>
        requires state { search.state < 2 }
        requires few { (search.found < MOST_JOINS) × IsWithin search }
        ensures found { IfOk result (λ r. IsFound self.now search.state r.0 × IsPlaceOf self.now r.1) }
        ensures ok { IfOk result (λ r. GoesOn 1 search r.2 × IsWithin r.2) }
        ensures err { IfErr result (λ s. GoesOn 0 search s × (s.on.row ≡ 26)) }
    {
        for passed in search.on().row..ROWS {
            let at = search.on().row;
            if let Some(none) = EmptyRow::of(self, at, search.state()) {
                search = search.pass_rows(none);
                continue;
            }
            if at >= ROWS {
                break;
            }
            match read_row(self, at) {
                Ok(row) => match search_row(&row, &self.slot(at).counts, &self.floor, search) {
                    Ok((place, found, next)) => {
                        let place = row.into_place(&self.floor, place);
                        self.subtract(&place, next.state());
                        return Ok((found, place, next));
                    }
                    Err(next) => search = next.end_row(row),
                },
                Err(none) => search = search.pass_unread(none),
            }
        }
        Err(search)
    }

    /// Goes on with a search for lanes until it takes one: this, its place, and the search.
    ///
    /// # Errors
    /// The search, if there is none.
    pub(crate) fn search_lane(
        &self,
        search: Search,
    ) -> Result<(LaneFromPlace, Place, Search), Search>
        requires lanes { search.state ≡ 1 }
        requires few { (search.found < MOST_JOINS) × IsWithin search }
        ensures taken { IfOk result (λ r. IsFromPlaceOf self.now (r.0, r.1)) }
        ensures ok { IfOk result (λ r. GoesOn 1 search r.2 × IsWithin r.2) }
        ensures err { IfErr result (λ s. GoesOn 0 search s × (s.on.row ≡ 26)) }
    {
        let (found, place, next) = self.search(search)?;
        Ok((found.lane(&self.floor), place, next))
    }

    /// Goes through all rows for a free place, which is then its finder's own.
    pub(super) fn search_free(&self) -> Option<Place>
        ensures { IfSome result (IsPlaceOf self.now) }
    {
        match self.search(Search::new(FREE, self)) {
            Ok((found, place, _)) => {
                found.nothing();
                Some(place)
            }
            Err(_) => None,
        }
    }
}
