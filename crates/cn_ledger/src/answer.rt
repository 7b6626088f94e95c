//! What epochs answer.

ghost use Rattle.std.specs.Prelude.{◌≡◌};
ghost use Rattle.cn_ledger.specs.Answers.{turned_answer};

use crate::record::EpochRecord;
use crate::reply::Reply;

/// Why a turn is refused.
#[derive(Clone, Copy, Debug, PartialEq, Eq)]
pub enum TurnFault {
    /// So many clients are inside.
    NotQuiet(u64),
    /// The record got no memory.
    Memory,
}

/// The answer to a command.
#[derive(Debug, Drop, PartialEq, Eq)]
pub enum Answer {
    /// What the core replied to an enter or a step.
    Replied(Reply),
    /// The epoch has ended, with this record.
    Turned(EpochRecord),
    /// The turn is refused.
    TurnRefused(TurnFault),
}

impl From<Result<EpochRecord, TurnFault>> for Answer {
    ghost from_gives = { λ turned answer. answer ≡ turned_answer turned };

    fn from(turned: Result<EpochRecord, TurnFault>) -> Answer {
        match turned {
            Ok(ended) => Answer::Turned(ended),
            Err(fault) => Answer::TurnRefused(fault),
        }
    }
}
