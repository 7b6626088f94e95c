//! Schedules: a header, and a command a record.

ghost use Rattle.std.specs.Prelude.{◌≡◌, ◌≤◌, ◌⊎◌, ◌∷◌, ◌++◌, [], ℕ, List, IfErr, IfOk, IfSome, OnOk, MatchOption, MatchResult, None, Ok, Some};
ghost use Rattle.cn_spec.specs.declared.limits.TheConstants.{MOST_RECORDS};
ghost use Rattle.cn_texts.specs.Reading.Command.{command_in};
ghost use Rattle.cn_texts.specs.Reading.Records.{HasRead, IsPlain, IsTold, Record, records_of};
ghost use Rattle.cn_texts.specs.Reading.Schedule.{IsSchedule, IsScheduleFault, cause_of_fault, command_cause, header_cause};

use crate::reading::command::command_of;
use crate::reading::records::{is_header, next_record, open_records};
use crate::reading::schedule_fault::{ScheduleCause, ScheduleFault};
use crate::reading::telling::{ReadTelling, Telling};
use cn_ledger::Command;
use cn_spec::limits::MOST_RECORDS;
use csv::{ByteRecord, Reader};
use std::alloc::Global;
use std::io::Read;

/// Takes the header.
fn take_header<R: ReadTelling>(
    records: &mut Reader<R>,
    fields: &mut ByteRecord,
) -> Result<(), ScheduleCause>
    requires { IsPlain records.old }
    ensures plain { OnOk result (IsPlain records.new) }
    ensures ok { IfOk result (λ _. (text : List ℕ) → HasRead R.remaining records.old text []
        → (fields : Record) × HasRead R.remaining records.new text (fields ∷ [])
        × (header_cause fields ≡ None)) }
    ensures err { IfErr result (λ cause. (text : List ℕ) → HasRead R.remaining records.old text []
        → IsScheduleFault (records_of text) (record { at = 0; cause = cause })) }
    ensures told { IfErr result (IsTold R.failed cause_of_fault records.new) }
{
    if next_record(records, fields)? && is_header(fields, b"op", b"client", b"wire") {
        Ok(())
    } else {
        Err(ScheduleCause::Header)
    }
}

/// Takes the command of record `at`, if there is one.
fn take_command<R: ReadTelling>(
    records: &mut Reader<R>,
    fields: &mut ByteRecord,
    at: u64,
) -> Result<Option<Command>, ScheduleCause>
    requires { IsPlain records.old }
    ensures plain { OnOk result (IsPlain records.new) }
    ensures found { IfOk result (λ found. (text : List ℕ) (before : List Record)
        → HasRead R.remaining records.old text before
        → MatchOption found (records_of text ≡ before) (λ command. (fields : Record)
        × HasRead R.remaining records.new text (before ++ fields ∷ [])
        × (command_cause at (command_in fields) ≡ None) × (command_in fields ≡ Ok command))) }
    ensures refused { IfErr result (λ cause. (text : List ℕ) (before : List Record)
        → HasRead R.remaining records.old text before
        → ((fields : Record) × HasRead R.remaining records.new text (before ++ fields ∷ [])
        × (command_cause at (command_in fields) ≡ Some cause))
        ⊎ (cause ≡ ScheduleCause.Read) ⊎ (cause ≡ ScheduleCause.Memory)) }
    ensures told { IfErr result (IsTold R.failed cause_of_fault records.new) }
    ensures few { IfOk result (λ found. IfSome found (λ _. at ≤ MOST_RECORDS)) }
{
    if !next_record(records, fields)? {
        return Ok(None);
    }
    let command = command_of(fields)?;
    if at > MOST_RECORDS {
        return Err(ScheduleCause::ScheduleFull);
    }
    Ok(Some(command))
}

/// Takes the header and the commands.
fn take_commands<R: ReadTelling>(
    alloc: Global,
    records: &mut Reader<R>,
    fields: &mut ByteRecord,
) -> Result<Vec<Command>, ScheduleFault>
    requires { IsPlain records.old }
    ensures answer { (text : List ℕ) → HasRead R.remaining records.old text []
        → MatchResult result (λ commands.
        IsSchedule (records_of text) commands.items) (IsScheduleFault (records_of text)) }
    ensures told { IfErr result (λ fault. IsTold R.failed cause_of_fault records.new fault.cause) }
{
    let mut commands = Vec::new(alloc);
    if let Err(cause) = take_header(records, fields) {
        return Err(ScheduleFault { at: 0, cause });
    }
    for at in 1..MOST_RECORDS + 2 {
        let taken = match take_command(records, fields, at) {
            Ok(taken) => taken,
            Err(cause) => return Err(ScheduleFault { at, cause }),
        };
        let Some(command) = taken else {
            return Ok(commands);
        };
        if commands.push(command).is_err() {
            let cause = ScheduleCause::Memory;
            return Err(ScheduleFault { at, cause });
        }
    }
    // Record MOST_RECORDS + 1 is the last that is read.
    unreachable!()
}

/// The commands of a schedule: a header `op,client,wire`, and then a record `enter,CLIENT,ENTRY`, `step,CLIENT,` or
/// `turn,,` for each command, as `csv` reads them.
///
/// # Errors
///
/// The first record that has a cause, with its first cause. A failed read and want of memory are reported at the record
/// that was being read.
pub fn read_schedule<R: Read + Drop>(
    alloc: Global,
    reader: R,
) -> Result<Vec<Command>, ScheduleFault>
    ensures { IfSome (R.remaining reader) (λ text.
        MatchResult result (λ commands.
        IsSchedule (records_of text) commands.items) (IsScheduleFault (records_of text))) }
{
    let mut records = open_records(alloc, Telling::new(reader))?;
    let mut fields = ByteRecord::new(alloc);
    take_commands(alloc, &mut records, &mut fields)
}
