//! Why calls of a floor are refused.

ghost use Rattle.std.specs.Prelude.{◌≡◌};
ghost use Rattle.cn_floor.specs.declared.fault.OpenFault.TheVariants as open_fault;

use std::alloc::AllocError;

/// Why a floor is not opened.
#[derive(Clone, Copy, Debug, PartialEq, Eq)]
pub enum OpenFault {
    /// The quota is more than an epoch's clients.
    Quota,
    /// A growth was refused.
    Memory,
}

impl From<AllocError> for OpenFault {
    ghost from_gives = { λ _ fault. fault ≡ open_fault.Memory };

    fn from(_e: AllocError) -> OpenFault {
        OpenFault::Memory
    }
}

/// Why a client is not let in; of several causes the first in this order is given.
#[derive(Clone, Copy, Debug, PartialEq, Eq)]
pub enum LaneFault {
    /// The network has no entry with this number.
    NoSuchEntry,
    /// The lane's quota is spent.
    QuotaSpent,
    /// A growth was refused.
    Memory,
}

/// Why a lane is not split.
#[derive(Clone, Copy, Debug, PartialEq, Eq)]
pub enum SplitFault {
    /// The lane has less quota.
    QuotaTooSmall,
    /// A growth was refused.
    Memory,
}

/// Why two lanes are not joined.
#[derive(Clone, Copy, Debug, PartialEq, Eq)]
pub enum JoinFault {
    /// The second has tokens.
    StillWalking,
    /// A growth was refused.
    Memory,
}
