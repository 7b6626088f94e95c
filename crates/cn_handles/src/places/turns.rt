//! Turns of places. Of what a thread saw of a place, or did there, only this file makes a value, and nothing copies
//! one: so a function that has to return some is not proved unless it makes the steps. That the lines here make them no
//! clause says, since none says what a shared word holds.

ghost use Rattle.std.specs.Arc.{arc_value};
ghost use Rattle.std.specs.Prelude.{◌≡◌, ◌<◌, Some, IfErr, IfOk, length};
ghost use Rattle.cn_handles.specs.Handles.{back_held};
ghost use Rattle.cn_handles.specs.Placing.{IsFound, IsNotIn, IsPlaceOf, IsPut, IsRowOf, IsSharedRowOf};
ghost use Rattle.cn_handles.specs.Returns.{IsBack};
ghost use Rattle.cn_handles.specs.declared.places.place.Spot.{Spot};

use crate::handles::held::Held;
use crate::places::kept::Kept;
use crate::places::lane_from_place::LaneFromPlace;
use crate::places::place::{Place, PlaceBox, Spot};
use crate::places::reading_rows::ReadRow;
use crate::places::row::Row;
use cn_floor::{Floor, Lane};
use counted_slot::{Claim, Counted, FREE, MARKED, PRESENT, TAKEN};
use std::snapshot::Snapshot;
use std::sync::atomic::AtomicU64;
use std::sync::atomic::Ordering::SeqCst;

/// A place is free, a lane's own (`MARKED`), or has a lane that was handed back (`PRESENT`). Only the owner of a place
/// turns it while it is its own: so whoever stops in the midst of a call has but one lane there, which is not wholly
/// handed back yet, or which it has taken.
pub(crate) type OnePlace = Counted<Option<PlaceBox>>;

/// Why a place was not turned: its word when it was looked at, or was to be turned.
#[derive(Drop)]
pub(crate) struct PlaceFault {
    spot: Spot,
    word: u64,
}

/// A lane was put into its place, under this word.
#[derive(Drop)]
pub(crate) struct Put {
    lane: Snapshot<Lane>,
    word: u64,
}

/// A hand-back has ended: how many had ended before.
#[derive(Drop)]
pub(crate) struct Ended {
    before: u64,
}

impl Ended {
    /// Counts a hand-back that put its lane into its place.
    pub(crate) fn after(_put: &Put, returns: &AtomicU64) -> Ended {
        Ended {
            before: returns.fetch_add(1, SeqCst),
        }
    }
}

/// What was found at a place in a state, and is its finder's own: nothing, or a lane. Nothing else lets it go.
pub(crate) struct Found {
    state: u64,
    there: Option<PlaceBox>,
}

impl Found {
    /// Nothing, at a place that was free.
    pub(crate) fn nothing(self)
        requires { self.state ≡ 0 }
    {
        let Found {
            state: _state,
            there: _there,
        } = self;
    }

    /// The lane that was handed back to its place.
    pub(crate) fn lane(self, floor: &Floor<'static>) -> LaneFromPlace
        requires { IsFound floor.now 1 self }
        ensures { IsBack floor.now result.lane.value }
    {
        let Found {
            state: _state,
            there,
        } = self;
        match there {
            Some(returned) => LaneFromPlace::of(returned, floor),
            None => unreachable!(),
        }
    }
}

/// Turns a place of a row from this state, by a load and a compare-exchange, for who may change it then.
///
/// # Errors
/// If it was in another state, or another thread turned it then.
fn turn_place<'a>(
    row: &'a Row,
    spot: Spot,
    state: u64,
    floor: &Floor<'static>,
) -> Result<Claim<'a, Option<PlaceBox>>, PlaceFault>
    requires row { IsRowOf floor.now row.now }
    requires place { spot.place < length row.now.places.items }
    requires state { state < 3 }
    ensures claim { IfOk result (λ claim. (claim.tag ≡ floor.now) × (claim.right ≡ 2)) }
    ensures err { IfErr result (IsNotIn spot state) }
{
    // Only the contract reads it: whose lanes stand here.
    let _ = floor;
    let place = &row.places[spot.place];
    let word = place.load();
    if word != state {
        return Err(PlaceFault { spot, word });
    }
    let (word, claim) = place.turn(state, TAKEN);
    if word != state {
        claim.done();
        return Err(PlaceFault { spot, word });
    }
    Ok(claim)
}

/// Takes what stands at a place in this state, which is its taker's own then.
///
/// # Errors
/// If it was in another state, or another thread turned it then.
pub(crate) fn take_from(
    row: &ReadRow,
    place: usize,
    state: u64,
    floor: &Floor<'static>,
) -> Result<Found, PlaceFault>
    requires row { IsSharedRowOf floor.now row.now.shared }
    requires place { place < length (arc_value row.now.shared.row).places.items }
    requires state { state < 2 }
    ensures found { IfOk result (IsFound floor.now state) }
    ensures err { IfErr result (IsNotIn (record { row = row.now.at; place = place }) state) }
{
    let spot = row.spot(place);
    match turn_place(row.row(), spot, state, floor)?.put(None, MARKED) {
        None if state == PRESENT => Err(PlaceFault { spot, word: MARKED }),
        there => Ok(Found { state, there }),
    }
}

impl Place {
    /// Puts a lane there, in this box: by a load, a compare-exchange and a store, whatever other threads do.
    ///
    /// # Errors
    /// The lane, in its box, if the place was not its owner's own (`MARKED`), which no call makes it.
    pub(crate) fn put(
        self,
        floor: &Floor<'static>,
        lane: Lane,
        mut boxed: Box<Kept>,
    ) -> Result<Put, (PlaceFault, Box<Kept>)>
        requires place { IsPlaceOf floor.now self }
        requires lane { IsBack floor.now lane }
        ensures ok { IfOk result (IsPut lane) }
        ensures err { IfErr result (λ r. IsNotIn self.spot 2 r.0 × (back_held r.1.value ≡ Some lane)) }
    {
        let put = Put {
            lane: Snapshot::of(&lane),
            word: PRESENT,
        };
        *boxed = Held::Back(lane);
        let turned = match turn_place(self.row(), self.spot(), MARKED, floor) {
            Ok(claim) => {
                let _ = claim.put(Some(PlaceBox::of(boxed)), PRESENT);
                Ok(put)
            }
            Err(other) => Err((other, boxed)),
        };
        self.go_with_floor();
        turned
    }

    /// Lets it go, for the lane of another split.
    pub(crate) fn free(self, floor: &Floor<'static>)
        requires { IsPlaceOf floor.now self }
    {
        if let Ok(claim) = turn_place(self.row(), self.spot(), MARKED, floor) {
            let _ = claim.put(None, FREE);
        }
        self.go_with_floor();
    }
}
