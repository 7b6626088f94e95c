//! The call that copies the grants of a lane.

ghost use Rattle.std.specs.Prelude.{◌≡◌, ◌<◌, length};
ghost use Rattle.cn_handles.specs.Handles.{lane_in};
ghost use Rattle.cn_handles.specs.Questions.{AreGrantsFrom};
ghost use Rattle.cn_handles.specs.Refusals.{IsRefusal, NotGranted, WithLane};
ghost use Rattle.cn_handles.specs.declared.handles.refusal.TheConstants.{DONE};

use crate::answer::status;
use cn_handles::{Grant, Handle, Refusal, copy_grants};

/// Copies grants of the lane, in the order in which they were given, from this one on.
#[unsafe(no_mangle)]
pub extern "C" fn renamer_grants(lane: &mut Handle, first: u64, grants: &mut [Grant]) -> u32
    ensures copied { result ≡ DONE
        → WithLane (lane_in lane.old.held) (λ l. AreGrantsFrom l.view.grants first grants.new) }
    ensures lane { lane.new.held ≡ lane.old.held }
    ensures kept { 0 < result → grants.new ≡ grants.old }
    ensures refused { 0 < result
        → IsRefusal (NotGranted (lane_in lane.old.held) first (length grants.old)) result }
{
    match lane.get_mut() {
        Some(held) => status(copy_grants(held, first, grants)),
        None => status(Err(Refusal::Nothing)),
    }
}
