//! A floor that lanes own together, and the places for lanes that are handed back to it.

mod claiming;
mod closing;
mod kept;
mod lane_from_place;
mod place;
mod reading_rows;
mod row;
mod searches;
mod searching;
mod shares;
mod turns;

ghost use Rattle.std.specs.Arc.{arc_value};
ghost use Rattle.std.specs.Prelude.{◌≡◌, ◌<◌, Some, length, IfOk};
ghost use Rattle.cn_floor.specs.Lane.{FloorValue};
ghost use Rattle.cn_handles.specs.Joining.{EndsSomewhere};
ghost use Rattle.cn_handles.specs.Placing.{AreSlotsOf, IsPlaceOf};
ghost use Rattle.cn_handles.specs.Returns.{IsBack};

pub(crate) use closing::{CloseStop, close_share, record_lists};
use cn_floor::{Floor, Lane};
use counted_slot::{Counted, FREE, PRESENT};
use kept::Kept;
pub(crate) use kept::keep;
pub(crate) use lane_from_place::{LaneFromPlace, LetGo};
pub(crate) use place::Place;
use reading_rows::RowSlot;
use row::Counts;
pub(crate) use searches::{MOST_JOINS, NoneBack, Search};
pub(crate) use shares::{Full, another_share};
use std::alloc::{AllocError, Global};
use std::marker::Model;
use std::sync::Arc;
use std::sync::atomic::AtomicU64;
use std::sync::atomic::Ordering::SeqCst;
use turns::{Ended, PlaceFault, Put};

/// How many rows there are at most.
pub(crate) const ROWS: usize = 26;

/// A floor with places for lanes. To contracts it is the floor.
#[derive(Drop)]
pub(crate) struct FloorWithPlaces {
    floor: Floor<'static>,
    /// The rows of places.
    slots: Vec<RowSlot>,
    /// How many hand-backs ended.
    returns: AtomicU64,
}

impl Model for FloorWithPlaces {
    ghost use Rattle.cn_floor.specs.Lane.{FloorValue};
    ghost use Rattle.cn_handles.specs.InsideFloorWithPlaces.{IsFloorWithPlaces};

    ghost Value = { FloorValue };

    ghost view = { λ g. g.floor };

    ghost invariant = { IsFloorWithPlaces };
}

/// Where a lane went that was handed back, also by a join that could not take it in.
#[derive(Drop)]
pub(crate) enum HandBack {
    /// To its place, and its hand-back was counted then.
    AtPlace(Put, Ended),
    /// Here, since its place was not its own, which no call makes it.
    NotItsOwn(PlaceFault, Box<Kept>),
}

/// A share of a floor: lanes own their floor together. It is there until its close takes it out.
pub(crate) type FloorShare = Arc<Option<FloorWithPlaces>, Global>;

/// Space for rows of places for lanes of a floor.
///
/// # Errors
/// `AllocError` if they get no memory.
fn no_rows(alloc: Global, floor: &Floor<'static>) -> Result<Vec<RowSlot>, AllocError>
    ensures { IfOk result (λ slots. AreSlotsOf floor.now slots.items × (length slots.items ≡ 26)) }
{
    let mut slots = Vec::new(alloc);
    for at in 0..ROWS {
        slots.push(RowSlot {
            row: Counted::new(None, floor),
            counts: Counts::new(),
        })?;
    }
    Ok(slots)
}

impl FloorWithPlaces {
    /// A floor with space for rows of places.
    ///
    /// # Errors
    /// `AllocError` if they get no memory.
    pub(crate) fn new(alloc: Global, floor: Floor<'static>) -> Result<FloorWithPlaces, AllocError>
        ensures { IfOk result (λ g. g ≡ floor.entry) }
    {
        let slots = no_rows(alloc, &floor)?;
        Ok(FloorWithPlaces {
            floor,
            slots,
            returns: AtomicU64::new(0),
        })
    }

    /// The floor.
    pub(crate) fn floor(&self) -> &Floor<'static>
        ensures { result.now ≡ self.now }
    {
        &self.floor
    }

    /// The row with this number, if it was made.
    pub(crate) fn slot(&self, row: usize) -> &RowSlot
        requires { row < 26 }
        ensures { result.now.row ≡ self.now }
    {
        &self.slots[row]
    }

    /// How many hand-backs ended.
    pub(crate) fn returns(&self) -> &AtomicU64 {
        &self.returns
    }

    /// Counts a place more in this state.
    fn add(&self, place: &Place, state: u64)
        requires { IsPlaceOf self.now place.now }
    {
        let (spot, row) = (place.spot(), place.row());
        let number = self.slots[spot.row].counts.of(state);
        number.fetch_add(row.part(spot.place), SeqCst);
        row.add(spot.place, state);
    }

    /// Counts a place less in this state.
    fn subtract(&self, place: &Place, state: u64)
        requires { IsPlaceOf self.now place.now }
    {
        let (spot, row) = (place.spot(), place.row());
        row.subtract(spot.place, state);
        let number = self.slots[spot.row].counts.of(state);
        number.fetch_sub(row.part(spot.place), SeqCst);
    }

    /// Lets a place go, for another lane.
    pub(crate) fn free(&self, place: Place)
        requires { IsPlaceOf self.now place }
    {
        self.add(&place, FREE);
        place.free(&self.floor);
    }

    /// Hands a lane back to its place, in its box: by as many steps as there are counts of the place, and four.
    pub(crate) fn hand_back(&self, place: Place, lane: Lane, boxed: Box<Kept>) -> HandBack
        requires place { IsPlaceOf self.now place }
        requires lane { IsBack self.now lane }
        ensures { EndsSomewhere lane result }
    {
        self.add(&place, PRESENT);
        match place.put(&self.floor, lane, boxed) {
            Ok(put) => {
                let ended = Ended::after(&put, &self.returns);
                HandBack::AtPlace(put, ended)
            }
            Err((other, boxed)) => HandBack::NotItsOwn(other, boxed),
        }
    }
}

/// The floor of a share, with its places.
pub(crate) fn with_places(share: &FloorShare) -> &FloorWithPlaces
    requires { (floor : FloorValue) × (arc_value share.now ≡ Some floor) }
    ensures { arc_value share.now ≡ Some result.now }
{
    match &**share {
        Some(floor) => floor,
        None => unreachable!(),
    }
}

/// The floor of a share.
pub(crate) fn floor_of(share: &FloorShare) -> &Floor<'static>
    requires { (floor : FloorValue) × (arc_value share.now ≡ Some floor) }
    ensures { arc_value share.now ≡ Some result.now }
{
    with_places(share).floor()
}
