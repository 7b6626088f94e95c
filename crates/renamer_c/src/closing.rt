//! The call that closes a floor.

ghost use Rattle.std.specs.Prelude.{◌≡◌, ◌<◌, None};
ghost use Rattle.cn_handles.specs.Calls.{Closes};
ghost use Rattle.cn_handles.specs.Handles.{lane_in, record_in};
ghost use Rattle.cn_handles.specs.Refusals.{IsRefusal, NotClosed};
ghost use Rattle.cn_handles.specs.declared.handles.refusal.TheConstants.{DONE};

use crate::answer::status;
use cn_handles::{Handle, close};
use std::alloc::Global;

/// Closes the floor of the lane.
#[unsafe(no_mangle)]
pub extern "C" fn renamer_close(alloc: Global, lane: &mut Handle, quiet: &mut Handle) -> u32
    ensures closed { result ≡ DONE → Closes (lane_in lane.old.held) (record_in quiet.new.held) }
    ensures taken { result ≡ DONE → lane.new.held ≡ None }
    ensures kept { 0 < result → (lane.new.held ≡ lane.old.held) × (quiet.new.held ≡ quiet.old.held) }
    ensures refused { 0 < result → IsRefusal (NotClosed (lane_in lane.old.held)) result }
{
    status(close(alloc, lane, quiet))
}
