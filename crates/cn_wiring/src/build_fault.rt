//! Why a network could not be built.

ghost use Rattle.std.specs.Prelude.{◌≡◌};
ghost use Rattle.cn_wiring.specs.declared.build_fault.BuildFault.TheVariants.{Memory};

use crate::draft::Draft;
use std::alloc::AllocError;

/// Why a counting network could not be built.
#[derive(Clone, Copy, Debug, PartialEq, Eq)]
pub enum BuildFault {
    /// No network of this width is built: [`crate::is_width`] is false.
    Width,
    /// The network got no memory.
    Memory,
}

impl From<AllocError> for BuildFault {
    ghost from_gives = { λ _ fault. fault ≡ Memory };

    fn from(_e: AllocError) -> BuildFault {
        BuildFault::Memory
    }
}

impl From<(Draft, AllocError)> for BuildFault {
    ghost from_gives = { λ _ fault. fault ≡ Memory };

    fn from(refused: (Draft, AllocError)) -> BuildFault {
        refused.1.into()
    }
}
