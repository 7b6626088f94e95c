//! What ends the program before its job is done, and the program's end.

ghost use Rattle.std.specs.IoError.{error_kind};
ghost use Rattle.std.specs.Prelude.{◌≡◌, ◌↔◌, true};
ghost use Rattle.std.specs.Result.{is_ok};
ghost use Rattle.std.specs.declared.io.ErrorKind.TheVariants.{OutOfMemory};
ghost use Rattle.cn_renamer.specs.Performing.{IsOfRuntime, status_by, status_of};
ghost use Rattle.cn_renamer.specs.declared.fault.Fault.TheVariants.{Check, Output, Replay, Serve};
ghost use Rattle.cn_renamer.specs.declared.output_fault.OutputFault.TheVariants.{Memory};

use crate::checking::CheckFault;
use crate::output_fault::OutputFault;
use crate::replaying::ReplayFault;
use crate::serve_fault::ServeFault;
use std::alloc::AllocError;
use std::io::{self, Cursor, Write};
use thiserror::Error;

/// The runtime gave no arguments or no random words.
#[derive(Clone, Copy, Debug, PartialEq, Eq, Error)]
#[error("renamer: runtime")]
pub struct RuntimeFault;

impl RuntimeFault {
    /// The status with which the program ends: 3.
    pub fn status(&self) -> u8
        ensures { result ≡ 3 }
    {
        3
    }
}

/// The first fault that the program met. Its text is what the program prints.
#[derive(Debug, Drop, Error)]
pub enum Fault {
    /// The words ask for no job, as the text says.
    #[error("{0}")]
    Refused(String),
    /// The runtime refuses what the program needs.
    #[error(transparent)]
    Runtime(RuntimeFault),
    /// The batch was refused, or its report was not written whole.
    #[error(transparent)]
    Serve(ServeFault),
    /// The schedule was refused, or the replay was not written whole.
    #[error(transparent)]
    Replay(ReplayFault),
    /// The grant list is not tight, or the text of the check was not written whole.
    #[error(transparent)]
    Check(CheckFault),
    /// The wiring, the help or the version was not written whole, or there was not the memory to read the words.
    #[error(transparent)]
    Output(OutputFault),
}

impl Fault {
    /// The status with which the program ends: 1 for input that is refused, 2 for words that are refused, 3 for want of
    /// memory, a runtime that refuses what the program needs, and a write that failed, 4 for a grant list that is not
    /// tight. It is never 0.
    pub fn status(&self) -> u8
        ensures { result ≡ status_of self.now }
    {
        match self {
            Fault::Refused(_) => 2,
            Fault::Runtime(fault) => fault.status(),
            Fault::Serve(fault) => fault.status(),
            Fault::Replay(fault) => fault.status(),
            Fault::Check(fault) => fault.status(),
            Fault::Output(fault) => fault.status(),
        }
    }
}

impl From<ServeFault> for Fault {
    ghost from_gives = { λ fault reported. reported ≡ Serve fault };

    fn from(fault: ServeFault) -> Fault {
        Fault::Serve(fault)
    }
}

impl From<ReplayFault> for Fault {
    ghost from_gives = { λ fault reported. reported ≡ Replay fault };

    fn from(fault: ReplayFault) -> Fault {
        Fault::Replay(fault)
    }
}

impl From<CheckFault> for Fault {
    ghost from_gives = { λ fault reported. reported ≡ Check fault };

    fn from(fault: CheckFault) -> Fault {
        Fault::Check(fault)
    }
}

impl From<OutputFault> for Fault {
    ghost from_gives = { λ fault reported. reported ≡ Output fault };

    fn from(fault: OutputFault) -> Fault {
        Fault::Output(fault)
    }
}

impl From<AllocError> for Fault {
    ghost from_gives = { λ _ reported. reported ≡ Output Memory };

    fn from(_error: AllocError) -> Fault {
        Fault::Output(OutputFault::Memory)
    }
}

/// What the runtime answers when it is asked for arguments or random words.
impl From<io::Error> for Fault {
    ghost from_gives = { λ error reported. IsOfRuntime reported
        × ((reported ≡ Output Memory) ↔ (error_kind error ≡ OutOfMemory)) };

    fn from(error: io::Error) -> Fault {
        match error.kind() {
            io::ErrorKind::OutOfMemory => Fault::Output(OutputFault::Memory),
            _ => Fault::Runtime(RuntimeFault),
        }
    }
}

/// Room for the line of a fault. None is half as long.
const ROOM: usize = 160;

/// Writes the text of a fault and a line feed. The line is made first, so that one write has all of it, and the lines
/// of programs that share their standard error do not mix.
fn write_line<E: Write>(errors: &mut E, fault: &Fault) -> io::Result<()> {
    let mut line = Cursor::new([0; ROOM]);
    let made = writeln!(line, "{fault}");
    match line.get_ref().get(..line.position() as usize) {
        Some(line) if made.is_ok() => errors.write_all(line),
        _ => writeln!(errors, "{fault}"),
    }
}

/// Writes what is printed of a fault. A refusal's text ends its own lines.
fn write_fault<E: Write>(errors: &mut E, fault: &Fault) -> io::Result<()> {
    match fault {
        Fault::Refused(text) => errors.write_all(text.as_bytes()),
        _ => write_line(errors, fault),
    }
}

/// Ends the program: writes what is printed of its fault, if it met one, to standard error, and answers its status,
/// which is 0 exactly if all is done. A write to standard error that fails leaves the status as it is.
pub fn end<E: Write>(done: &Result<(), Fault>, errors: &mut E) -> u8
    ensures status { result ≡ status_by done.now }
    ensures zero { (result ≡ 0) ↔ (is_ok done.now ≡ true) }
    ensures quiet { is_ok done.now ≡ true → errors.new ≡ errors.old }
{
    match done {
        Ok(()) => 0,
        Err(fault) => {
            let _ = write_fault(errors, fault);
            fault.status()
        }
    }
}
