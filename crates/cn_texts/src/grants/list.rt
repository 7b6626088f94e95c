//! A grant list that is read: a header, and a grant a record.

ghost use Rattle.std.specs.Prelude.{◌≡◌, ◌≤◌, ◌+◌, ◌⊎◌, ◌∷◌, ◌++◌, [], ℕ, List, IfErr, IfOk, IfSome, MatchOption, MatchResult, OnOk, None, Some, length};
ghost use Rattle.cn_spec.specs.declared.limits.TheConstants.{MOST_NAMED};
ghost use Rattle.cn_texts.specs.declared.grants.record.Granted.{Granted};
ghost use Rattle.cn_texts.specs.Grants.Granted.{grant_spelled, last_epoch, spelled_form};
ghost use Rattle.cn_texts.specs.Grants.TightList.{IsFirstWithCause, IsFlaw, IsFlawTold, IsOutside, IsTightList, grant_cause_of_fault, header_cause};
ghost use Rattle.cn_texts.specs.Grants.Printed.{IsNamedList};
ghost use Rattle.cn_texts.specs.Reading.Bounds.{bounds_of};
ghost use Rattle.cn_texts.specs.Reading.Records.{HasRead, IsPlain, IsTold, Record, records_of};

use crate::grants::epochs::{Granting, NamedEpoch};
use crate::grants::record::{Flaw, GrantCause, Granted, flaw_at, granted_of};
use crate::reading::Bounds;
use crate::reading::records::{is_header, next_record, open_records};
use crate::reading::telling::{ReadTelling, Telling};
use csv::{ByteRecord, Reader};
use std::alloc::Global;
use std::io::Read;

/// Takes the header.
fn take_header<R: ReadTelling>(
    records: &mut Reader<R>,
    fields: &mut ByteRecord,
) -> Result<(), GrantCause>
    requires { IsPlain records.old }
    ensures plain { OnOk result (IsPlain records.new) }
    ensures ok { IfOk result (λ _. (text : List ℕ) → HasRead R.remaining records.old text []
        → (fields : Record) × HasRead R.remaining records.new text (fields ∷ [])
        × (header_cause fields ≡ None)) }
    ensures err { IfErr result (λ cause. (most : ℕ) (text : List ℕ) → HasRead R.remaining records.old text []
        → IsFirstWithCause most (records_of text) 0 cause) }
    ensures told { IfErr result (IsTold R.failed grant_cause_of_fault records.new) }
{
    if next_record(records, fields)? && is_header(fields, b"epoch", b"client", b"name") {
        Ok(())
    } else {
        Err(GrantCause::Form)
    }
}

/// The next grant, if there is one, which is record `at` of so many at most, after those of the latest epoch.
fn next_grant<R: ReadTelling>(
    records: &mut Reader<R>,
    fields: &mut ByteRecord,
    most: u64,
    at: u64,
    latest: u64,
) -> Result<Option<Granted>, GrantCause>
    requires plain { IsPlain records.old }
    ensures plain { OnOk result (IsPlain records.new) }
    ensures found { IfOk result (λ found. (text : List ℕ) (before : List Record)
        → HasRead R.remaining records.old text before
        → MatchOption found (records_of text ≡ before) (λ grant. (fields : Record)
        × HasRead R.remaining records.new text (before ++ fields ∷ []) × (grant_spelled fields ≡ Some grant))) }
    ensures form { IfOk result (λ found. IfSome found (λ grant. (latest ≤ grant.epoch) × (at ≤ most))) }
    ensures refused { IfErr result (λ cause. (text : List ℕ) (before : List Record) (grants : List Granted)
        → HasRead R.remaining records.old text before
        → last_epoch grants ≡ latest → length grants + 1 ≡ at
        → ((fields : Record) × HasRead R.remaining records.new text (before ++ fields ∷ [])
        × (spelled_form most grants (grant_spelled fields) ≡ Some cause))
        ⊎ (cause ≡ GrantCause.Read) ⊎ (cause ≡ GrantCause.Memory)) }
    ensures told { IfErr result (IsTold R.failed grant_cause_of_fault records.new) }
{
    if !next_record(records, fields)? {
        return Ok(None);
    }
    let Some(grant) = granted_of(fields) else {
        return Err(GrantCause::Form);
    };
    if grant.epoch < latest || at > most {
        return Err(GrantCause::Form);
    }
    Ok(Some(grant))
}

/// Takes the header and the grants, of which there are so many at most.
fn take_grants<R: ReadTelling>(
    alloc: Global,
    records: &mut Reader<R>,
    fields: &mut ByteRecord,
    most: u64,
) -> Result<Vec<NamedEpoch>, Flaw>
    requires plain { IsPlain records.old }
    requires most { most ≤ MOST_NAMED }
    ensures answer { (text : List ℕ) → HasRead R.remaining records.old text []
        → let records = records_of text in
        MatchResult result (λ epochs. IsNamedList most records epochs.items) (IsFlaw most records) }
    ensures told { IfErr result (IsFlawTold R.failed records.new) }
{
    let mut granting = Granting::new(alloc);
    if let Err(cause) = take_header(records, fields) {
        return Err(flaw_at(0, cause));
    }
    for at in 1..most + 2 {
        match next_grant(records, fields, most, at, granting.latest()) {
            Ok(Some(grant)) => granting.add(grant)?,
            Ok(None) => return granting.finish(),
            Err(cause) => {
                granting.settle()?;
                return Err(flaw_at(at, cause));
            }
        }
    }
    // Record `most + 1` is the last that is read.
    unreachable!()
}

/// Whether a grant list gives each epoch's clients the names below their number, each once: a header
/// `epoch,client,name`, and then a record of three numbers for each grant, as `csv` reads them. An epoch is a run of
/// records of one number, and the numbers rise. Of each epoch it returns the number, and how many clients it has: by
/// any width exit i's share of so many is how many of the names are `i` modulo the width. Clients and names that stand
/// at an earlier record are found when their epoch ends. The list is large or not, and has as many grants as its bounds
/// say ([`Bounds::of`]).
///
/// # Errors
///
/// The first record that has a cause, with its first cause; if no record has one, the first name that is missing. A
/// failed read is reported at the record that was being read. `Memory` if a growth was refused. A record
/// after as many as the list may have has the cause `Form`.
pub fn named_grants_within<R: Read + Drop>(
    alloc: Global,
    reader: R,
    large: bool,
) -> Result<Vec<NamedEpoch>, Flaw>
    ensures answer { IfSome (R.remaining reader) (λ text. let most = (bounds_of large 0).records in
        MatchResult result (λ epochs. IsNamedList most (records_of text) epochs.items)
        (IsFlaw most (records_of text))) }
    ensures exact { IfSome (R.remaining reader) (λ text.
        IfErr result (λ flaw. IsTightList (bounds_of large 0).records (records_of text) → IsOutside flaw)) }
{
    let mut records = open_records(alloc, Telling::new(reader))?;
    let mut fields = ByteRecord::new(alloc);
    let bounds = Bounds::of(large, 0);
    take_grants(alloc, &mut records, &mut fields, bounds.records)
}
