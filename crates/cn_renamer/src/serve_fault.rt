//! What keeps a batch from being served to its end.

ghost use Rattle.std.specs.Prelude.{◌≡◌};
ghost use Rattle.cn_renamer.specs.declared.serve_fault.ServeFault.TheVariants.{Memory, Write};
ghost use Rattle.cn_renamer.specs.Serve.{fault_of_batch, status_of_serve};

use cn_texts::{BatchCause, BatchFault, EmitFault};
use cn_wiring::BuildFault;
use std::alloc::AllocError;
use thiserror::Error;

/// Why a run did not end well. Its text is the line that the program prints.
#[derive(Clone, Copy, Debug, PartialEq, Eq, Error)]
pub enum ServeFault {
    /// The input is no batch: its first record with a cause, which is never want of memory.
    #[error("renamer: record {}: {}", .0.at, .0.cause)]
    Batch(BatchFault),
    /// A growth was refused.
    #[error("renamer: memory")]
    Memory,
    /// A write failed, or the flush at the end, after this many bytes of the text.
    #[error("renamer: write after {written} bytes")]
    Write {
        /// How many bytes were written: they are the first of the text.
        written: u64,
    },
}

impl ServeFault {
    /// The status with which the program ends: 1 for a batch that is refused, 3 for want of memory and for a write that
    /// failed.
    pub fn status(&self) -> u8
        ensures { result ≡ status_of_serve self.now }
    {
        match self {
            ServeFault::Batch(_) => 1,
            ServeFault::Memory | ServeFault::Write { .. } => 3,
        }
    }
}

impl From<BatchFault> for ServeFault {
    ghost from_gives = { λ fault reported. reported ≡ fault_of_batch fault };

    fn from(fault: BatchFault) -> Self {
        match fault.cause {
            BatchCause::Memory => ServeFault::Memory,
            _ => ServeFault::Batch(fault),
        }
    }
}

/// A network that is built fails to be built only for want of memory.
impl From<BuildFault> for ServeFault {
    ghost from_gives = { λ _ fault. fault ≡ Memory };

    fn from(_fault: BuildFault) -> Self {
        ServeFault::Memory
    }
}

impl From<AllocError> for ServeFault {
    ghost from_gives = { λ _ fault. fault ≡ Memory };

    fn from(_error: AllocError) -> Self {
        ServeFault::Memory
    }
}

impl From<EmitFault> for ServeFault {
    ghost from_gives = { λ fault reported. reported ≡ Write fault.written };

    fn from(fault: EmitFault) -> Self {
        ServeFault::Write {
            written: fault.written,
        }
    }
}
