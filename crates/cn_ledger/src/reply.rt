//! What a core replies.

ghost use Rattle.std.specs.Prelude.{◌≡◌};
ghost use Rattle.cn_ledger.specs.Answers.{entered_reply, stepped_reply};

use crate::moved::Moved;

/// Why an enter is refused; of several causes the first in this order is given.
#[derive(Clone, Copy, Debug, PartialEq, Eq)]
pub enum EnterFault {
    /// The network has no entry with this number.
    NoSuchEntry,
    /// The client is inside, or holds a name.
    AlreadyIn,
    /// The epoch has as many clients as it may have.
    EpochFull,
    /// A growth was refused.
    Memory,
}

/// Why a step is refused.
#[derive(Clone, Copy, Debug, PartialEq, Eq)]
pub enum StepFault {
    /// The client did not enter.
    Stranger,
    /// The client holds this name already.
    HasName(u64),
}

/// The answer to an event.
#[derive(Clone, Copy, Debug, PartialEq, Eq)]
pub enum Reply {
    /// The enter is accepted.
    Entered,
    /// The enter is refused.
    EnterRefused(EnterFault),
    /// The step is taken.
    Stepped(Moved),
    /// The step is refused.
    StepRefused(StepFault),
}

impl From<Result<(), EnterFault>> for Reply {
    ghost from_gives = { λ entered reply. reply ≡ entered_reply entered };

    fn from(entered: Result<(), EnterFault>) -> Reply {
        match entered {
            Ok(()) => Reply::Entered,
            Err(fault) => Reply::EnterRefused(fault),
        }
    }
}

impl From<Result<Moved, StepFault>> for Reply {
    ghost from_gives = { λ stepped reply. reply ≡ stepped_reply stepped };

    fn from(stepped: Result<Moved, StepFault>) -> Reply {
        match stepped {
            Ok(moved) => Reply::Stepped(moved),
            Err(fault) => Reply::StepRefused(fault),
        }
    }
}
