//! A list of grants, checked.

ghost use Rattle.std.specs.Prelude.{◌≡◌, IfErr, Some, false};
ghost use Rattle.cn_tables.specs.Widths.{IsWidth};
ghost use Rattle.cn_texts.specs.Writing.Written.{HasWritten, written_by};
ghost use Rattle.cn_renamer.specs.Check.{IsCheckFault, IsCheckOfKnown, IsTightTextOf, fault_of_flaw, fault_of_output, status_of_check, until_check};
ghost use Rattle.cn_renamer.specs.Lines.{flaw_line};
ghost use Rattle.cn_renamer.specs.Outputs.{until_output};

use crate::output_fault::OutputFault;
use cn_texts::{Flaw, NamedEpoch, Pieces, named_grants_within, write_tight};
use std::alloc::Global;
use std::fmt;
use std::io::{Read, Write};
use thiserror::Error;

/// Why a check did not end well. Its text is the line that the program prints.
#[derive(Clone, Copy, Debug, PartialEq, Eq, Error)]
pub enum CheckFault {
    /// The input is no tight list of grants: its flaw, which is never want of memory.
    #[error("{}", FlawLine(*.0))]
    Flaw(Flaw),
    /// A growth was refused.
    #[error("renamer: memory")]
    Memory,
    /// A write failed, or the flush at the end, after this many bytes of the text.
    #[error("renamer: write after {written} bytes")]
    Write {
        /// How many bytes were written: they are the first of the text.
        written: u64,
    },
}

/// A flaw, printed as the program's line.
#[derive(Clone, Copy)]
struct FlawLine(Flaw);

impl fmt::Display for FlawLine {
    ghost output = { λ line. Some (flaw_line line.0) };

    fn fmt<W: fmt::Write>(&self, f: &mut fmt::Formatter<W>) -> fmt::Result {
        let flaw = self.0;
        match flaw {
            Flaw::Read(at) | Flaw::Form(at) => write!(f, "renamer: record {at}: {flaw}"),
            Flaw::DuplicateClient(at) | Flaw::DuplicateName(at) => {
                write!(f, "renamer: flaw: {flaw} record {at}")
            }
            Flaw::Gap { epoch, name } => {
                write!(f, "renamer: flaw: {flaw} epoch {epoch} name {name}")
            }
            Flaw::Memory => f.write_str("renamer: memory"),
        }
    }
}

impl CheckFault {
    /// The status with which the program ends: 1 for input that is no list of grants, 3 for want of memory and for a
    /// write that failed, 4 for a list that is not tight.
    pub fn status(&self) -> u8
        ensures { result ≡ status_of_check self.now }
    {
        match self {
            CheckFault::Flaw(flaw) => match flaw {
                Flaw::Read(_) | Flaw::Form(_) => 1,
                Flaw::DuplicateClient(_) | Flaw::DuplicateName(_) | Flaw::Gap { .. } => 4,
                Flaw::Memory => 3,
            },
            CheckFault::Memory | CheckFault::Write { .. } => 3,
        }
    }
}

impl From<Flaw> for CheckFault {
    ghost from_gives = { λ flaw reported. reported ≡ fault_of_flaw flaw };

    fn from(flaw: Flaw) -> Self {
        match flaw {
            Flaw::Memory => CheckFault::Memory,
            _ => CheckFault::Flaw(flaw),
        }
    }
}

impl From<OutputFault> for CheckFault {
    ghost from_gives = { λ fault reported. reported ≡ fault_of_output fault };

    fn from(fault: OutputFault) -> Self {
        match fault {
            OutputFault::Memory => CheckFault::Memory,
            OutputFault::Write { written } => CheckFault::Write { written },
        }
    }
}

/// Writes the text of the epochs of a tight list, each with its share of each exit.
fn write_epochs<W: Write>(
    alloc: Global,
    writer: &mut W,
    width: u32,
    epochs: &[NamedEpoch],
) -> Result<(), OutputFault>
    requires { IsWidth width }
    ensures { HasWritten W.contents (IsTightTextOf width epochs.now)
        (written_by until_output result) writer.old writer.new }
{
    let pieces = Pieces::new(alloc)?;
    write_tight(writer, pieces, width, epochs)?;
    Ok(())
}

/// Reads a list of grants that is not a large one, and if it is tight writes what it has, as [`check_within`] does.
///
/// The width is one of the widths of networks ([`cn_wiring::is_width`]).
///
/// # Errors
/// Those of [`check_within`].
pub fn check<R: Read + Drop, W: Write>(
    alloc: Global,
    reader: R,
    writer: &mut W,
    width: u32,
) -> Result<(), CheckFault>
    requires { IsWidth width }
    ensures written { let Is = IsCheckOfKnown width false (R.remaining reader) in
        HasWritten W.contents Is (written_by until_check result) writer.old writer.new }
    ensures flawed { IfErr result (IsCheckFault false (R.remaining reader)) }
{
    check_within(alloc, reader, writer, width, false)
}

/// Reads a list of grants, and if it is tight writes what it has: each epoch's number and its number of clients, how
/// many of its names are `i` modulo the width, for each `i` below it, and how many epochs and grants there are.
///
/// The width is one of the widths of networks ([`cn_wiring::is_width`]). A large list has at most
/// [`cn_spec::limits::MOST_NAMED`] grants, another [`cn_spec::limits::MOST_RECORDS`]. Nothing is written before the
/// whole list is judged.
///
/// # Errors
/// `Flaw` with the first record that has a flaw, or the first gap; `Memory` if any growth was refused; `Write` if a
/// write or the flush at the end failed, with the number of bytes that were written: they are the first of the text. On
/// any other fault nothing was written.
pub fn check_within<R: Read + Drop, W: Write>(
    alloc: Global,
    reader: R,
    writer: &mut W,
    width: u32,
    large: bool,
) -> Result<(), CheckFault>
    requires { IsWidth width }
    ensures written { let Is = IsCheckOfKnown width large (R.remaining reader) in
        HasWritten W.contents Is (written_by until_check result) writer.old writer.new }
    ensures flawed { IfErr result (IsCheckFault large (R.remaining reader)) }
{
    let epochs = named_grants_within(alloc, reader, large)?;
    write_epochs(alloc, writer, width, &epochs)?;
    Ok(())
}
