//! Lanes that are taken back, and places that are claimed for new ones. The row with number n has 16 * 2^n places, and
//! stays once it is made.

ghost use Rattle.std.specs.Prelude.{IfErr, IfOk};
ghost use Rattle.cn_handles.specs.Looking.{IsNoneBack, IsFromPlaceOf};
ghost use Rattle.cn_handles.specs.Placing.{IsPlaceOf};

use super::{FloorWithPlaces, ROWS};
use crate::places::lane_from_place::LaneFromPlace;
use crate::places::place::Place;
use crate::places::reading_rows::make_row;
use crate::places::row::{Row, SharedRow};
use crate::places::searches::{MOST_SEARCHES, NoneBack};
use counted_slot::FREE;
use std::alloc::{AllocError, Global};
use std::sync::Arc;

/// How many places the first row has.
const FIRST_ROW: usize = 16;

impl FloorWithPlaces {
    /// Takes a lane that was handed back, with its place. If it finds none, it searches again until no hand-back ended
    /// meanwhile: so none was back at that moment.
    ///
    /// # Errors
    /// What was seen, if no lane is there.
    pub(crate) fn take_back(&self) -> Result<(LaneFromPlace, Place), NoneBack>
        ensures ok { IfOk result (IsFromPlaceOf self.now) }
        ensures none { IfErr result IsNoneBack }
    {
        let mut search = self.new_search();
        for vain in 0..MOST_SEARCHES {
            match self.search_lane(search) {
                Ok((taken, place, _)) => return Ok((taken, place)),
                Err(whole) => match whole.end(self) {
                    Ok(none) => return Err(none),
                    Err(again) => search = again,
                },
            }
        }
        Err(NoneBack::Late(search))
    }

    /// A free place for a lane, which is then its own. If there is none, a row is made.
    ///
    /// # Errors
    /// `AllocError` if it gets no memory.
    pub(crate) fn claim_place(&self, alloc: Global) -> Result<Place, AllocError>
        ensures { IfOk result (IsPlaceOf self.now) }
    {
        for at in 0..ROWS {
            if let Some(place) = self.search_free() {
                return Ok(place);
            }
            if self.slot(at).row.load() == FREE {
                let size = FIRST_ROW << at;
                let row = Arc::new(alloc, Row::new(alloc, &self.floor, size)?)?;
                make_row(self, at, SharedRow { row });
            }
        }
        Err(AllocError)
    }
}
