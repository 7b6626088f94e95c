//! Lanes of handles that are handed back to their floor, taken into others, and taken back whole.

ghost use Rattle.std.specs.Prelude.{◌≡◌, None, IfErr, IfOk, OnErr, OnOk};
ghost use Rattle.cn_handles.specs.Handles.{lane_held, lane_in};
ghost use Rattle.cn_handles.specs.Refusals.{NotHandedBack, NotJoined, NotJoinedAll, NotTakenBack};
ghost use Rattle.cn_handles.specs.Returns.{HandsBack, Joins, JoinsAll, TakesBack};

use crate::handles::handle::Handle;
use crate::handles::held::Held;
use crate::handles::held_lane::returning::TakeStop;
use crate::handles::refusal::Refusal;
use std::alloc::Global;

/// Hands a lane back to its floor, for other lanes to take in.
///
/// # Errors
/// The first that stands: `Nothing`, `StillWalking`. Then nothing has changed.
pub fn hand_back(alloc: Global, lane: &mut Handle) -> Result<(), Refusal>
    ensures handed { OnOk result (HandsBack (lane_in lane.old.held)) }
    ensures taken { OnOk result (lane.new.held ≡ None) }
    ensures kept { OnErr result (lane.new.held ≡ lane.old.held) }
    ensures refused { IfErr result (NotHandedBack (lane_in lane.old.held)) }
{
    let (held, boxed) = lane.take_lane(alloc)?;
    match held.hand_back(boxed) {
        Ok(_) => Ok(()),
        Err((refusal, held, boxed)) => {
            lane.put_lane(held, boxed);
            Err(refusal)
        }
    }
}

/// Takes in a lane of the same floor that was handed back.
///
/// # Errors
/// The first that stands: `Nothing`, `NothingBack`, `Memory`. Then nothing has changed.
pub fn join(alloc: Global, lane: &mut Handle) -> Result<(), Refusal>
    ensures joined { OnOk result (Joins (lane_in lane.old.held) (lane_in lane.new.held)) }
    ensures kept { OnErr result (lane.new.held ≡ lane.old.held) }
    ensures refused { IfErr result (NotJoined (lane_in lane.old.held)) }
{
    let (held, boxed) = lane.take_lane(alloc)?;
    match held.join_one() {
        Ok(held) => {
            lane.put_lane(held, boxed);
            Ok(())
        }
        Err((held, stop)) => {
            lane.put_lane(held, boxed);
            Err(stop.refusal())
        }
    }
}

/// Takes in the lanes of the same floor that were handed back.
///
/// # Errors
/// The first that stands, after those that were taken in: `Nothing`, `Memory`.
pub fn join_all(alloc: Global, lane: &mut Handle) -> Result<(), Refusal>
    ensures joined { JoinsAll (lane_in lane.old.held) (lane_in lane.new.held) }
    ensures refused { IfErr result (NotJoinedAll (lane_in lane.new.held)) }
{
    let (held, boxed) = lane.take_lane(alloc)?;
    match held.join_all() {
        Ok((held, _)) => {
            lane.put_lane(held, boxed);
            Ok(())
        }
        Err((held, stop)) => {
            lane.put_lane(held, boxed);
            Err(stop.refusal())
        }
    }
}

/// Takes a lane of the floor that was handed back, whole, in its box.
///
/// # Errors
/// The first that stands: `Nothing`, `NothingBack`.
pub fn take_back(of: &Held) -> Result<Box<Held>, Refusal>
    ensures ok { IfOk result (λ b. TakesBack (lane_held of.now) (lane_held b.value)) }
    ensures refused { IfErr result (NotTakenBack (lane_held of.now)) }
{
    let taken = match of.lane() {
        Ok(lane) => lane.take_back(),
        Err(_) => Err(TakeStop::Nothing),
    };
    taken.map_err(|stop| stop.refusal())
}
