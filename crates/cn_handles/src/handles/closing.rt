//! The close of a floor by the lane of a handle.

ghost use Rattle.std.specs.Prelude.{◌≡◌, None, IfErr, OnErr, OnOk};
ghost use Rattle.cn_handles.specs.Calls.{Closes};
ghost use Rattle.cn_handles.specs.Handles.{lane_in, record_in};
ghost use Rattle.cn_handles.specs.Refusals.{NotClosed};

use crate::handles::handle::Handle;
use crate::handles::held::Held;
use crate::handles::refusal::Refusal;
use std::alloc::Global;

/// Closes the floor of the lane.
///
/// # Errors
/// The first that stands: `Nothing`, `StillWalking`, `LanesMissing`, `Memory`, `LanesThere`. Then nothing has changed.
pub fn close(alloc: Global, lane: &mut Handle, quiet: &mut Handle) -> Result<(), Refusal>
    ensures closed { OnOk result (Closes (lane_in lane.old.held) (record_in quiet.new.held)) }
    ensures taken { OnOk result (lane.new.held ≡ None) }
    ensures kept { OnErr result ((lane.new.held ≡ lane.old.held) × (quiet.new.held ≡ quiet.old.held)) }
    ensures refused { IfErr result (NotClosed (lane_in lane.old.held)) }
{
    let (held, mut boxed) = lane.take_lane(alloc)?;
    match held.close(alloc) {
        Ok(closed) => {
            *boxed = Held::Closed(closed);
            quiet.put(boxed);
            Ok(())
        }
        Err((stop, held)) => {
            lane.put_lane(held, boxed);
            Err(stop.refusal())
        }
    }
}
