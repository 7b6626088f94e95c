//! Calls that hand lanes back to their floor, and take them into others.

ghost use Rattle.std.specs.Prelude.{◌≡◌, ◌<◌, None};
ghost use Rattle.cn_handles.specs.Handles.{lane_in};
ghost use Rattle.cn_handles.specs.Refusals.{IsRefusal, NotHandedBack, NotJoined, NotJoinedAll, NotTakenBack};
ghost use Rattle.cn_handles.specs.Returns.{HandsBack, Joins, JoinsAll, TakesBack};
ghost use Rattle.cn_handles.specs.declared.handles.refusal.TheConstants.{DONE};

use crate::answer::status;
use cn_handles::{DONE, Handle, Refusal, hand_back, join, join_all, take_back};
use std::alloc::Global;

/// Hands a lane back to its floor, for other lanes to take in.
#[unsafe(no_mangle)]
pub extern "C" fn renamer_hand_back(alloc: Global, lane: &mut Handle) -> u32
    ensures handed { result ≡ DONE → HandsBack (lane_in lane.old.held) }
    ensures taken { result ≡ DONE → lane.new.held ≡ None }
    ensures kept { 0 < result → lane.new.held ≡ lane.old.held }
    ensures refused { 0 < result → IsRefusal (NotHandedBack (lane_in lane.old.held)) result }
{
    status(hand_back(alloc, lane))
}

/// Takes in a lane of the same floor that was handed back.
#[unsafe(no_mangle)]
pub extern "C" fn renamer_join(alloc: Global, lane: &mut Handle) -> u32
    ensures joined { result ≡ DONE → Joins (lane_in lane.old.held) (lane_in lane.new.held) }
    ensures kept { 0 < result → lane.new.held ≡ lane.old.held }
    ensures refused { 0 < result → IsRefusal (NotJoined (lane_in lane.old.held)) result }
{
    status(join(alloc, lane))
}

/// Takes in the lanes of the same floor that were handed back.
#[unsafe(no_mangle)]
pub extern "C" fn renamer_join_all(alloc: Global, lane: &mut Handle) -> u32
    ensures joined { JoinsAll (lane_in lane.old.held) (lane_in lane.new.held) }
    ensures refused { 0 < result → IsRefusal (NotJoinedAll (lane_in lane.new.held)) result }
{
    status(join_all(alloc, lane))
}

/// Takes a lane of the floor that was handed back, whole: the floor is that of a lane which is only asked.
#[unsafe(no_mangle)]
pub extern "C" fn renamer_take_back(of: &mut Handle, back: &mut Handle) -> u32
    ensures taken { result ≡ DONE → TakesBack (lane_in of.old.held) (lane_in back.new.held) }
    ensures of { of.new.held ≡ of.old.held }
    ensures kept { 0 < result → back.new.held ≡ back.old.held }
    ensures refused { 0 < result → IsRefusal (NotTakenBack (lane_in of.old.held)) result }
{
    let taken = match of.get_mut() {
        Some(held) => take_back(held),
        None => Err(Refusal::Nothing),
    };
    match taken {
        Ok(taken) => {
            back.put(taken);
            DONE
        }
        Err(refusal) => refusal.status(),
    }
}
