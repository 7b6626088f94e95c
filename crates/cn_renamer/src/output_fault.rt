//! What keeps a text from being written whole.

ghost use Rattle.std.specs.Prelude.{◌≡◌};
ghost use Rattle.cn_renamer.specs.declared.output_fault.OutputFault.TheVariants.{Memory, Write};

use cn_texts::EmitFault;
use cn_wiring::BuildFault;
use std::alloc::AllocError;
use thiserror::Error;

/// Why a text was not written whole. Its own text is the line that the program prints.
#[derive(Clone, Copy, Debug, PartialEq, Eq, Error)]
pub enum OutputFault {
    /// A growth was refused.
    #[error("renamer: memory")]
    Memory,
    /// A write failed, or the flush at the end, after this many bytes of the text.
    #[error("renamer: write after {written} bytes")]
    Write {
        /// How many bytes were written: they are the first of the text.
        written: u64,
    },
}

impl OutputFault {
    /// The status with which the program ends: 3.
    pub fn status(&self) -> u8
        ensures { result ≡ 3 }
    {
        match self {
            OutputFault::Memory | OutputFault::Write { .. } => 3,
        }
    }
}

impl From<AllocError> for OutputFault {
    ghost from_gives = { λ _ fault. fault ≡ Memory };

    fn from(_error: AllocError) -> Self {
        OutputFault::Memory
    }
}

/// A network that is built fails to be built only for want of memory.
impl From<BuildFault> for OutputFault {
    ghost from_gives = { λ _ fault. fault ≡ Memory };

    fn from(_fault: BuildFault) -> Self {
        OutputFault::Memory
    }
}

impl From<EmitFault> for OutputFault {
    ghost from_gives = { λ fault reported. reported ≡ Write fault.written };

    fn from(fault: EmitFault) -> Self {
        OutputFault::Write {
            written: fault.written,
        }
    }
}
