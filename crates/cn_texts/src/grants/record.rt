//! One record of a grant list, and what can be wrong with a list.

ghost use Rattle.std.specs.Prelude.{◌≡◌, Some};
ghost use Rattle.csv.specs.Records.{fields_of};
ghost use Rattle.cn_texts.specs.Reading.Number.{number_in};
ghost use Rattle.cn_texts.specs.Grants.Granted.{grant_spelled, granted_from};
ghost use Rattle.cn_texts.specs.Grants.TightList.{flaw_name, flaw_of, grant_cause_of_fault};
ghost use Rattle.cn_texts.specs.declared.grants.record.Flaw.TheVariants as flaws;

use crate::reading::number::number_of;
use crate::reading::records::{RecordFault, field};
use csv::ByteRecord;
use std::alloc::AllocError;
use std::fmt;

/// A client that got a name in an epoch.
#[derive(Clone, Copy)]
pub struct Granted {
    /// The epoch's number.
    pub epoch: u64,
    /// The client.
    pub client: u64,
    /// Its name.
    pub name: u64,
}

/// What is wrong with a record of a grant list.
#[derive(Clone, Copy)]
pub(crate) enum GrantCause {
    Read,
    Form,
    DuplicateClient,
    DuplicateName,
    Memory,
}

/// What is wrong with a grant list: the first record with a cause, and its first cause in this order; if no record has
/// one, the first name that is missing. Records are given by their number; the header is record 0.
#[derive(Clone, Copy, Debug, PartialEq, Eq)]
pub enum Flaw {
    /// The reader failed at this record.
    Read(u64),
    /// Record 0 is missing, or is not `epoch,client,name`; or the record is not three numbers of 1 to 20 digits below
    /// 2 ^ 64, has an epoch below that of the record before, or comes after 1,048,576 others.
    Form(u64),
    /// The client has a name in this epoch already.
    DuplicateClient(u64),
    /// The name is given in this epoch already.
    DuplicateName(u64),
    /// The least epoch that lacks a name below its number of grants, and the least such name.
    Gap {
        /// The epoch's number.
        epoch: u64,
        /// The name.
        name: u64,
    },
    /// A growth was refused.
    Memory,
}

impl fmt::Display for Flaw {
    ghost output = { λ flaw. Some (flaw_name flaw) };

    fn fmt<W: fmt::Write>(&self, f: &mut fmt::Formatter<W>) -> fmt::Result {
        let name = match self {
            Flaw::Read(_) => "Read",
            Flaw::Form(_) => "Form",
            Flaw::DuplicateClient(_) => "DuplicateClient",
            Flaw::DuplicateName(_) => "DuplicateName",
            Flaw::Gap { .. } => "Gap",
            Flaw::Memory => "Memory",
        };
        f.write_str(name)
    }
}

impl From<AllocError> for Flaw {
    ghost from_gives = { λ _ flaw. flaw ≡ flaws.Memory };

    fn from(_error: AllocError) -> Self {
        Flaw::Memory
    }
}

impl From<RecordFault> for GrantCause {
    ghost from_gives = { λ fault cause. cause ≡ grant_cause_of_fault fault };

    fn from(fault: RecordFault) -> Self {
        match fault {
            RecordFault::Read => GrantCause::Read,
            RecordFault::Memory => GrantCause::Memory,
        }
    }
}

/// The flaw of a record with this cause.
pub(crate) fn flaw_at(at: u64, cause: GrantCause) -> Flaw
    ensures { result ≡ flaw_of at cause }
{
    match cause {
        GrantCause::Read => Flaw::Read(at),
        GrantCause::Form => Flaw::Form(at),
        GrantCause::DuplicateClient => Flaw::DuplicateClient(at),
        GrantCause::DuplicateName => Flaw::DuplicateName(at),
        GrantCause::Memory => Flaw::Memory,
    }
}

/// The grant that three fields spell, if each is a number.
fn granted_from(epoch: &[u8], client: &[u8], name: &[u8]) -> Option<Granted>
    ensures { result ≡ granted_from (number_in epoch.now) (number_in client.now) (number_in name.now) }
{
    let epoch = number_of(epoch)?;
    let client = number_of(client)?;
    let name = number_of(name)?;
    Some(Granted {
        epoch,
        client,
        name,
    })
}

/// The grant of a record, if it is one.
#[tactic(auto, unfolding(crate::specs::Grants::Granted::grant_spelled))]
pub(crate) fn granted_of(fields: &ByteRecord) -> Option<Granted>
    ensures { result ≡ grant_spelled (fields_of fields.now) }
{
    if fields.len() != 3 {
        return None;
    }
    granted_from(field(fields, 0), field(fields, 1), field(fields, 2))
}
