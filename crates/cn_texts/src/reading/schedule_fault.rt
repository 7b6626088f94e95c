//! What can be wrong with a schedule.

ghost use Rattle.std.specs.Prelude.{◌≡◌, Some};
ghost use Rattle.cn_texts.specs.declared.reading.schedule_fault.ScheduleCause.TheVariants as causes;
ghost use Rattle.cn_texts.specs.Reading.Schedule.{cause_name, cause_of_fault};

use crate::reading::records::RecordFault;
use std::alloc::AllocError;
use std::fmt;

/// What is wrong with a record of a schedule. Of several causes the first in this order is given, except that `Memory`
/// may stand in place of any other.
#[derive(Clone, Copy, Debug, PartialEq, Eq)]
pub enum ScheduleCause {
    /// The reader failed.
    Read,
    /// Record 0 is missing, or is not `op,client,wire`.
    Header,
    /// The record has not three fields.
    FieldCount,
    /// The first field names no operation.
    Op,
    /// The second field is no number of 1 to 20 digits below 2 ^ 64, or is not empty for a turn.
    ClientNumber,
    /// The third field is no such number, or is not empty for a step or a turn.
    WireNumber,
    /// There are more than 1,048,576 records after the header.
    ScheduleFull,
    /// A growth was refused.
    Memory,
}

impl fmt::Display for ScheduleCause {
    ghost output = { λ cause. Some (cause_name cause) };

    fn fmt<W: fmt::Write>(&self, f: &mut fmt::Formatter<W>) -> fmt::Result {
        let name = match self {
            ScheduleCause::Read => "Read",
            ScheduleCause::Header => "Header",
            ScheduleCause::FieldCount => "FieldCount",
            ScheduleCause::Op => "Op",
            ScheduleCause::ClientNumber => "ClientNumber",
            ScheduleCause::WireNumber => "WireNumber",
            ScheduleCause::ScheduleFull => "ScheduleFull",
            ScheduleCause::Memory => "Memory",
        };
        f.write_str(name)
    }
}

impl From<RecordFault> for ScheduleCause {
    ghost from_gives = { λ fault cause. cause ≡ cause_of_fault fault };

    fn from(fault: RecordFault) -> Self {
        match fault {
            RecordFault::Read => ScheduleCause::Read,
            RecordFault::Memory => ScheduleCause::Memory,
        }
    }
}

/// The first record of a schedule with a cause, and its first cause.
#[derive(Clone, Copy, Debug, PartialEq, Eq)]
pub struct ScheduleFault {
    /// The number of the record; the header is record 0.
    pub at: u64,
    /// What is wrong with it.
    pub cause: ScheduleCause,
}

// Want of memory before the first record is read.
impl From<AllocError> for ScheduleFault {
    ghost from_gives = { λ _ fault. fault ≡ record { at = 0; cause = causes.Memory } };

    fn from(_error: AllocError) -> Self {
        ScheduleFault {
            at: 0,
            cause: ScheduleCause::Memory,
        }
    }
}
