//! The wiring of a network, shown.

ghost use Rattle.cn_texts.specs.Writing.Written.{HasWritten, written_by};
ghost use Rattle.cn_renamer.specs.Outputs.{until_output};
ghost use Rattle.cn_renamer.specs.Show.{IsWiringOf};

use crate::output_fault::OutputFault;
use cn_nets::Net;
use cn_texts::{Pieces, write_wiring};
use std::alloc::Global;
use std::io::Write;

/// Why a wiring was not shown whole.
pub type ShowFault = OutputFault;

/// Writes the wiring of a network: its heading, where each wire ends, and how many wires there are.
///
/// # Errors
/// `Memory` if any growth was refused, and then nothing was written; `Write` if a write or the flush at the end failed,
/// with the number of bytes that were written: they are the first of the text.
pub fn show<W: Write>(alloc: Global, writer: &mut W, net: &Net) -> Result<(), ShowFault>
    ensures { HasWritten W.contents (IsWiringOf net.now) (written_by until_output result) writer.old writer.new }
{
    let network = net.build(alloc)?;
    let pieces = Pieces::new(alloc)?;
    write_wiring(writer, pieces, &network)?;
    Ok(())
}
