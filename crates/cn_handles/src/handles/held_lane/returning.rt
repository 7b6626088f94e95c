//! Lanes that are handed back, and taken into others.

ghost use Rattle.std.specs.Prelude.{◌≡◌, ◌<◌, Some, IfErr, IfOk, length};
ghost use Rattle.cn_handles.specs.Handles.{lane_held};
ghost use Rattle.cn_handles.specs.Joining.{AreAllIn, EndsSomewhere, StopsTake, StopsWith, refusal_of, refusal_of_take};
ghost use Rattle.cn_handles.specs.Looking.{IsFromPlaceOf};
ghost use Rattle.cn_handles.specs.Refusals.{NotHandedBack, NotJoined, NotJoinedAll, NotTakenBack};
ghost use Rattle.cn_handles.specs.Returns.{IsBack, IsJoined, Joins, JoinsAll, TakesBack};

use super::HeldLane;
use crate::handles::held::Held;
use crate::handles::refusal::Refusal;
use crate::places::{
    Full, HandBack, LaneFromPlace, LetGo, MOST_JOINS, NoneBack, Place, Search, another_share,
    floor_of, keep, with_places,
};

/// Why a lane takes in no other.
#[derive(Drop)]
pub(crate) enum JoinStop {
    /// There is no lane.
    Nothing,
    /// No lane was back.
    NothingBack(NoneBack),
    /// The lane has no room for the grants of one that was back, which is handed back again.
    Memory(HandBack),
}

impl JoinStop {
    /// The refusal.
    pub(crate) fn refusal(&self) -> Refusal
        ensures { result ≡ refusal_of self.now }
    {
        match self {
            JoinStop::Nothing => Refusal::Nothing,
            JoinStop::NothingBack(_) => Refusal::NothingBack,
            JoinStop::Memory(_) => Refusal::Memory,
        }
    }
}

/// Why no lane comes whole.
#[derive(Drop)]
pub(crate) enum TakeStop {
    /// There is no lane whose floor is asked.
    Nothing,
    /// No lane was back.
    NothingBack(NoneBack),
    /// The floor has as many owners as it can have.
    Full(Full),
    /// Lanes with nothing were found for centuries.
    Late(LetGo),
}

impl TakeStop {
    /// The refusal.
    pub(crate) fn refusal(&self) -> Refusal
        ensures { result ≡ refusal_of_take self.now }
    {
        match self {
            TakeStop::Nothing => Refusal::Nothing,
            _ => Refusal::NothingBack,
        }
    }
}

impl HeldLane {
    /// Hands the lane back to its floor, in the box of its handle: nothing is freed. If no other lane is out, the floor
    /// is let go, with all lanes that are back.
    ///
    /// # Errors
    /// `StillWalking`, with the lane as it was.
    pub(crate) fn hand_back(
        self,
        boxed: Box<Held>,
    ) -> Result<HandBack, (Refusal, HeldLane, Box<Held>)>
        ensures ok { IfOk result (λ handed. IsBack self.home self × EndsSomewhere self handed) }
        ensures err { IfErr result (λ r. r.1 ≡ self) }
        ensures refused { IfErr result (λ r. NotHandedBack (Some self) r.0) }
    {
        if self.lane.inside() != 0 {
            return Err((Refusal::StillWalking, self, boxed));
        }
        let HeldLane {
            floor,
            lane,
            most: _most,
            place,
        } = self;
        Ok(with_places(&floor).hand_back(place, lane, keep(boxed)))
    }

    /// Takes in this lane of the floor, which was handed back.
    ///
    /// # Errors
    /// If it has no room for the other's grants, with the lane as it was, and where the other went, which is handed
    /// back again.
    fn join(
        self,
        other: LaneFromPlace,
        other_place: Place,
    ) -> Result<HeldLane, (HeldLane, HandBack)>
        requires { IsFromPlaceOf self.home (other, other_place) }
        ensures ok { IfOk result (λ r. IsJoined self r other.lane.value) }
        ensures err { IfErr result (λ r. (r.0 ≡ self) × EndsSomewhere other.lane.value r.1) }
        ensures room { IfErr result (λ r. self.room < length other.lane.value.view.grants) }
    {
        let HeldLane {
            floor,
            lane,
            most,
            place,
        } = self;
        match other.join(floor_of(&floor), lane) {
            Ok(lane) => {
                with_places(&floor).free(other_place);
                Ok(HeldLane::of(floor, lane, most, place))
            }
            Err((lane, other)) => {
                let handed = other.put_back(with_places(&floor), other_place);
                Err((HeldLane::of(floor, lane, most, place), handed))
            }
        }
    }

    /// Takes in a lane of the floor that was handed back.
    ///
    /// # Errors
    /// If none was back at one moment, or the lane has no room for the grants of one. It is as it was then.
    pub(crate) fn join_one(self) -> Result<HeldLane, (HeldLane, JoinStop)>
        ensures ok { IfOk result (λ lane. Joins (Some self) (Some lane)) }
        ensures err { IfErr result (λ r. r.0 ≡ self) }
        ensures stop { IfErr result (λ r. StopsWith (Some self) r.1) }
        ensures refused { IfErr result (λ r. NotJoined (Some self) (refusal_of r.1)) }
    {
        match with_places(&self.floor).take_back() {
            Ok((other, place)) => match self.join(other, place) {
                Ok(lane) => Ok(lane),
                Err((lane, handed)) => Err((lane, JoinStop::Memory(handed))),
            },
            Err(none) => Err((self, JoinStop::NothingBack(none))),
        }
    }

    /// Takes a lane of the floor that was handed back, whole, in its box: by a share of the floor more, and no memory.
    /// Those with neither quota nor grants that it finds are let go.
    ///
    /// # Errors
    /// If none was back at one moment, or the floor has as many owners as it can have.
    pub(crate) fn take_back(&self) -> Result<Box<Held>, TakeStop>
        ensures ok { IfOk result (λ b. TakesBack (Some self.now) (lane_held b.value)) }
        ensures stop { IfErr result StopsTake }
        ensures refused { IfErr result (λ s. NotTakenBack (Some self.now) (refusal_of_take s)) }
    {
        let floor = another_share(&self.floor).map_err(TakeStop::Full)?;
        let mut gone = LetGo::none();
        for met in 0..MOST_JOINS {
            match with_places(&self.floor).take_back() {
                Ok((taken, place)) => {
                    if taken.has_any() {
                        return Ok(taken.whole(floor, self.most, place));
                    }
                    gone = taken.let_go(gone);
                    with_places(&self.floor).free(place);
                }
                Err(none) => return Err(TakeStop::NothingBack(none)),
            }
        }
        Err(TakeStop::Late(gone))
    }

    /// Takes in the lanes of the floor that were handed back, each that one search through all places finds. Returns
    /// the search.
    ///
    /// # Errors
    /// If the lane, which has taken in those before, has no room for the grants of one.
    pub(crate) fn join_all(self) -> Result<(HeldLane, Search), (HeldLane, JoinStop)>
        ensures ok { IfOk result (λ r. AreAllIn (Some self) (Some r.0) r.1) }
        ensures joined { IfErr result (λ r. JoinsAll (Some self) (Some r.0)) }
        ensures stop { IfErr result (λ r. StopsWith (Some r.0) r.1) }
        ensures refused { IfErr result (λ r. NotJoinedAll (Some r.0) (refusal_of r.1)) }
    {
        let mut lane = self;
        let mut search = with_places(&lane.floor).new_search();
        for joined in 0..MOST_JOINS {
            let (other, place, next) = match with_places(&lane.floor).search_lane(search) {
                Ok(found) => found,
                Err(whole) => return Ok((lane, whole)),
            };
            match lane.join(other, place) {
                Ok(after) => lane = after,
                Err((lane, handed)) => return Err((lane, JoinStop::Memory(handed))),
            }
            search = next;
        }
        Ok((lane, search))
    }
}
