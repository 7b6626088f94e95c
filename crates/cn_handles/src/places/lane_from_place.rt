//! Lanes that are taken out of their places.

ghost use Rattle.std.specs.Arc.{arc_value};
ghost use Rattle.std.specs.Prelude.{◌≡◌, ◌≤◌, ◌<◌, ◌+◌, ◌^◌, Some, false, IfErr, IfOk, IsSome, IsSomeAnd, IsTrue, length};
ghost use Rattle.cn_handles.specs.Handles.{back_held, lane_held};
ghost use Rattle.cn_handles.specs.Placing.{IsPlaceOf};
ghost use Rattle.cn_handles.specs.Returns.{HasAny, IsBack, IsJoined};

use crate::handles::held::Held;
use crate::handles::held_lane::HeldLane;
use crate::places::kept::{Kept, unkeep};
use crate::places::place::{Place, PlaceBox};
use crate::places::{FloorShare, FloorWithPlaces, HandBack};
use cn_floor::{Floor, JoinFault, Lane};
use std::mem::replace;
use std::snapshot::Snapshot;

/// A lane that was taken out of a place, in its box there. Only a join lets it go, or its place has it again, or a
/// handle. It is moved as its box is.
pub(crate) struct LaneFromPlace {
    lane: Snapshot<Lane>,
    boxed: Box<Kept>,
    ghost there: { back_held boxed.value ≡ Some lane.value },
}

/// How many lanes with nothing were let go by one call.
#[derive(Drop)]
pub(crate) struct LetGo {
    number: u64,
}

impl LetGo {
    /// None yet.
    pub(crate) fn none() -> LetGo
        ensures { result.number ≡ 0 }
    {
        LetGo { number: 0 }
    }
}

/// The lane that is back in this box.
fn lane_of(boxed: &Box<Kept>) -> &Lane
    requires { IsSome (back_held boxed.now.value) }
    ensures { back_held boxed.now.value ≡ Some result.now }
{
    match &**boxed {
        Held::Back(lane) => lane,
        _ => unreachable!(),
    }
}

impl LaneFromPlace {
    ghost use Rattle.cn_handles.specs.Joining.{EndsSomewhere};

    /// What stood at a place of this floor.
    pub(crate) fn of(returned: PlaceBox, floor: &Floor<'static>) -> LaneFromPlace
        requires { IsSomeAnd (back_held returned.boxed.value) (IsBack floor.now) }
        ensures { IsBack floor.now result.lane.value }
    {
        // Only the contract reads it: whose lane it is.
        let _ = floor;
        let boxed = returned.into_boxed();
        let lane = Snapshot::of(lane_of(&boxed));
        LaneFromPlace { lane, boxed }
    }

    /// A lane, in this box.
    fn with(lane: Lane, mut boxed: Box<Kept>) -> LaneFromPlace
        ensures { result.lane.value ≡ lane }
    {
        let seen = Snapshot::of(&lane);
        *boxed = Held::Back(lane);
        LaneFromPlace { lane: seen, boxed }
    }

    /// The lane, out of its box.
    fn into_lane(self) -> (Lane, Box<Kept>)
        ensures { result.0 ≡ self.lane.value }
    {
        let LaneFromPlace {
            lane: _lane,
            mut boxed,
        } = self;
        match replace(boxed.as_mut(), Held::Nothing) {
            Held::Back(lane) => (lane, boxed),
            _ => unreachable!(),
        }
    }

    /// A lane takes it in.
    ///
    /// # Errors
    /// If the lane has no room for its grants.
    pub(crate) fn join(
        self,
        floor: &Floor<'static>,
        lane: Lane,
    ) -> Result<Lane, (Lane, LaneFromPlace)>
        requires own { lane.home ≡ floor.now }
        requires back { IsBack floor.now self.lane.value }
        ensures ok { IfOk result (λ joined. IsJoined lane joined self.lane.value) }
        ensures err { IfErr result (λ r. (r.0 ≡ lane) × (r.1.lane.value ≡ self.lane.value)) }
        ensures room { IfErr result (λ r. lane.room < length self.lane.value.view.grants) }
    {
        let (other, boxed) = self.into_lane();
        match floor.join(lane, other) {
            Ok(lane) => Ok(lane),
            Err((JoinFault::Memory, lane, other)) => Err((lane, LaneFromPlace::with(other, boxed))),
            Err((JoinFault::StillWalking, _, _)) => unreachable!(),
        }
    }

    /// Whether it has quota or grants.
    pub(crate) fn has_any(&self) -> bool
        ensures any { IsTrue result → HasAny self.now.lane.value }
        ensures none { result ≡ false
            → (self.now.lane.value.view.quota ≡ 0) × (length self.now.lane.value.view.grants ≡ 0) }
    {
        let lane = lane_of(&self.boxed);
        lane.quota() != 0 || !lane.grants().is_empty()
    }

    /// Lets it go, which has nothing, with its box.
    pub(crate) fn let_go(self, mut gone: LetGo) -> LetGo
        requires nothing { (self.lane.value.view.quota ≡ 0) × (length self.lane.value.view.grants ≡ 0) }
        requires few { gone.number + 1 < 2 ^ 64 }
        ensures { result.number ≡ gone.number + 1 }
    {
        let (_lane, _boxed) = self.into_lane();
        gone.number += 1;
        gone
    }

    /// The lane whole, in its box, with a share of its floor.
    pub(crate) fn whole(self, floor: FloorShare, most: u64, place: Place) -> Box<Held>
        requires own { arc_value floor ≡ Some self.lane.value.home }
        requires most { most ≡ self.lane.value.home.start.quota }
        requires place { IsPlaceOf self.lane.value.home place }
        requires spare { self.lane.value.room ≤ self.lane.value.yard.spare }
        ensures { lane_held result.value ≡ Some self.lane.value }
    {
        let (lane, boxed) = self.into_lane();
        let mut boxed = unkeep(boxed);
        *boxed = Held::Lane(HeldLane::of(floor, lane, most, place));
        boxed
    }

    /// Puts it back into its place.
    pub(crate) fn put_back(self, floor: &FloorWithPlaces, place: Place) -> HandBack
        requires lane { IsBack floor.now self.lane.value }
        requires place { IsPlaceOf floor.now place }
        ensures { EndsSomewhere self.lane.value result }
    {
        let (lane, boxed) = self.into_lane();
        floor.hand_back(place, lane, boxed)
    }
}
