//! Why calls are refused, and the statuses of that.

ghost use Rattle.std.specs.Prelude.{◌≡◌, ◌<◌};
ghost use Rattle.cn_handles.specs.Statuses.{refusal_of_fault, status_of_refusal};
ghost use Rattle.cn_handles.specs.declared.handles.refusal.Refusal.TheVariants.{Memory};

use cn_floor::LaneFault;
use std::alloc::{AllocError, AllocFailed};

/// The status of a call that is done.
pub const DONE: u32 = 0;

/// Why a call is refused. The header for C has a name for each.
#[derive(Clone, Copy, Debug, PartialEq, Eq)]
pub enum Refusal {
    /// The handle does not have what the call wants.
    Nothing,
    /// A growth was refused.
    Memory,
    /// There is no network of this kind.
    Kind,
    /// There is no network of this width.
    Width,
    /// The quota is more than an epoch's clients.
    Quota,
    /// The network has no entry with this number.
    NoSuchEntry,
    /// The lane's quota is spent.
    QuotaSpent,
    /// The lane has less quota.
    QuotaTooSmall,
    /// The lane has clients inside.
    StillWalking,
    /// The lane has no client there.
    NobodyThere,
    /// Other lanes have a part of the floor's quota, spent or not.
    LanesMissing,
    /// No lane was handed back.
    NothingBack,
    /// The array has the wrong size.
    Size,
    /// More clients came before than a floor may carry.
    Carried,
    /// Other lanes are there still, with none of the floor's quota.
    LanesThere,
}

impl From<AllocError> for Refusal {
    ghost from_gives = { λ _ refusal. refusal ≡ Memory };

    fn from(_error: AllocError) -> Refusal {
        Refusal::Memory
    }
}

impl<T: Drop> From<AllocFailed<T>> for Refusal {
    ghost from_gives = { λ _ refusal. refusal ≡ Memory };

    fn from(_failed: AllocFailed<T>) -> Refusal {
        Refusal::Memory
    }
}

impl From<LaneFault> for Refusal {
    ghost from_gives = { λ fault refusal. refusal ≡ refusal_of_fault fault };

    fn from(fault: LaneFault) -> Refusal {
        match fault {
            LaneFault::NoSuchEntry => Refusal::NoSuchEntry,
            LaneFault::QuotaSpent => Refusal::QuotaSpent,
            LaneFault::Memory => Refusal::Memory,
        }
    }
}

impl Refusal {
    /// Its status.
    pub fn status(self) -> u32
        ensures status { result ≡ status_of_refusal self }
        ensures refused { 0 < result }
    {
        match self {
            Refusal::Nothing => 1,
            Refusal::Memory => 2,
            Refusal::Kind => 3,
            Refusal::Width => 4,
            Refusal::Quota => 5,
            Refusal::NoSuchEntry => 6,
            Refusal::QuotaSpent => 7,
            Refusal::QuotaTooSmall => 8,
            Refusal::StillWalking => 9,
            Refusal::NobodyThere => 10,
            Refusal::LanesMissing => 11,
            Refusal::NothingBack => 12,
            Refusal::Size => 13,
            Refusal::Carried => 14,
            Refusal::LanesThere => 15,
        }
    }
}
