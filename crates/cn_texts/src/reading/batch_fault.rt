//! What can be wrong with a batch.

ghost use Rattle.std.specs.Prelude.{◌≡◌, Some};
ghost use Rattle.cn_texts.specs.declared.reading.batch_fault.BatchCause.TheVariants as causes;
ghost use Rattle.cn_texts.specs.Reading.Batch.{batch_cause_name, batch_cause_of_fault};

use crate::reading::records::RecordFault;
use std::alloc::AllocError;
use std::fmt;

/// What is wrong with a record of a batch. Of several causes the first in this order is given, except that `Memory` may
/// stand in place of any other.
#[derive(Clone, Copy, Debug, PartialEq, Eq)]
pub enum BatchCause {
    /// The reader failed.
    Read,
    /// Record 0 is missing, or is neither `epoch,client,entry` nor `epoch,client`.
    Header,
    /// The record has not as many fields as record 0.
    FieldCount,
    /// The first field is no number of 1 to 20 digits below 2 ^ 64.
    EpochNumber,
    /// The second field is no such number.
    ClientNumber,
    /// The third field is no such number.
    EntryNumber,
    /// The epoch's number is below that of the record before.
    EpochBackwards,
    /// The network has no such entry.
    EntryRange,
    /// The client stands in this epoch already.
    Duplicate,
    /// The epoch has as many clients as it takes ([`crate::Bounds`]).
    EpochFull,
    /// There are more records after the header than the batch takes.
    BatchFull,
    /// A growth was refused.
    Memory,
}

impl fmt::Display for BatchCause {
    ghost output = { λ cause. Some (batch_cause_name cause) };

    fn fmt<W: fmt::Write>(&self, f: &mut fmt::Formatter<W>) -> fmt::Result {
        let name = match self {
            BatchCause::Read => "Read",
            BatchCause::Header => "Header",
            BatchCause::FieldCount => "FieldCount",
            BatchCause::EpochNumber => "EpochNumber",
            BatchCause::ClientNumber => "ClientNumber",
            BatchCause::EntryNumber => "EntryNumber",
            BatchCause::EpochBackwards => "EpochBackwards",
            BatchCause::EntryRange => "EntryRange",
            BatchCause::Duplicate => "Duplicate",
            BatchCause::EpochFull => "EpochFull",
            BatchCause::BatchFull => "BatchFull",
            BatchCause::Memory => "Memory",
        };
        f.write_str(name)
    }
}

impl From<RecordFault> for BatchCause {
    ghost from_gives = { λ fault cause. cause ≡ batch_cause_of_fault fault };

    fn from(fault: RecordFault) -> Self {
        match fault {
            RecordFault::Read => BatchCause::Read,
            RecordFault::Memory => BatchCause::Memory,
        }
    }
}

impl From<AllocError> for BatchCause {
    ghost from_gives = { λ _ cause. cause ≡ causes.Memory };

    fn from(_error: AllocError) -> Self {
        BatchCause::Memory
    }
}

/// The first record of a batch with a cause, and its first cause.
#[derive(Clone, Copy, Debug, PartialEq, Eq)]
pub struct BatchFault {
    /// The number of the record; the header is record 0.
    pub at: u64,
    /// What is wrong with it.
    pub cause: BatchCause,
}

// Want of memory before the first record is read.
impl From<AllocError> for BatchFault {
    ghost from_gives = { λ _ fault. fault ≡ record { at = 0; cause = causes.Memory } };

    fn from(_error: AllocError) -> Self {
        BatchFault {
            at: 0,
            cause: BatchCause::Memory,
        }
    }
}
