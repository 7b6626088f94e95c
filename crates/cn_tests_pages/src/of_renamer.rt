//! The caller of the page of cn_renamer.

ghost use Rattle.std.specs.Prelude.{IfOk};
ghost use Rattle.cn_renamer.specs.Replay.{IsReplayOf};

use cn_nets::Net;
use cn_renamer::{ReplayFault, replay};
use std::alloc::Global;
use std::hash::RandomState;

/// The text of a schedule's replay, in memory.
pub fn replay_in_memory(
    alloc: Global,
    schedule: &[u8],
    net: &Net,
    state: RandomState,
) -> Result<Vec<u8>, ReplayFault>
    ensures { IfOk result (λ text. IsReplayOf net.now schedule.now text.items) }
{
    let mut text = Vec::new(alloc);
    replay(alloc, schedule, &mut text, net, state)?;
    Ok(text)
}
