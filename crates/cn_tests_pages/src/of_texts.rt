//! The caller of the page of cn_texts.

ghost use Rattle.std.specs.Prelude.{◌≡◌, IfOk, List, length};
ghost use Rattle.cn_ledger.specs.declared.command.Command.{Command};
ghost use Rattle.cn_texts.specs.Reading.Records.{records_of};
ghost use Rattle.cn_texts.specs.Reading.Schedule.{IsSchedule};

use cn_texts::{ScheduleFault, read_schedule};
use std::alloc::Global;

/// How many commands a schedule has.
pub fn commands_in(alloc: Global, text: &[u8]) -> Result<usize, ScheduleFault>
    ensures { IfOk result (λ count. (commands : List Command)
        × IsSchedule (records_of text.now) commands × (length commands ≡ count)) }
{
    let commands = read_schedule(alloc, text)?;
    Ok(commands.len())
}
