//! The command that a record of a schedule spells.

ghost use Rattle.std.specs.Prelude.{◌≡◌, ◌≢◌, IfErr};
ghost use Rattle.csv.specs.Records.{fields_of};
ghost use Rattle.cn_texts.specs.Reading.Command.{command_in, entering, spelled, stepping, turning};
ghost use Rattle.cn_texts.specs.Reading.Number.{number_in};

use crate::reading::number::number_of;
use crate::reading::records::field;
use crate::reading::schedule_fault::ScheduleCause;
use cn_ledger::Command;
use csv::ByteRecord;

/// The enter of a client by an entry.
fn enter_from(client: &[u8], wire: &[u8]) -> Result<Command, ScheduleCause>
    ensures value { result ≡ entering (number_in client.now) (number_in wire.now) }
    ensures no_read { IfErr result (λ cause. cause ≢ ScheduleCause.Read) }
{
    let client = number_of(client).ok_or(ScheduleCause::ClientNumber)?;
    let entry = number_of(wire).ok_or(ScheduleCause::WireNumber)?;
    Ok(Command::Enter { client, entry })
}

/// The step of a client, whose record has no wire.
fn step_from(client: &[u8], wire: &[u8]) -> Result<Command, ScheduleCause>
    ensures value { result ≡ stepping (number_in client.now) wire.now }
    ensures no_read { IfErr result (λ cause. cause ≢ ScheduleCause.Read) }
{
    let client = number_of(client).ok_or(ScheduleCause::ClientNumber)?;
    if wire.is_empty() {
        Ok(Command::Step { client })
    } else {
        Err(ScheduleCause::WireNumber)
    }
}

/// The turn, whose record has no client and no wire.
fn turn_from(client: &[u8], wire: &[u8]) -> Result<Command, ScheduleCause>
    ensures value { result ≡ turning client.now wire.now }
    ensures no_read { IfErr result (λ cause. cause ≢ ScheduleCause.Read) }
{
    if !client.is_empty() {
        Err(ScheduleCause::ClientNumber)
    } else if !wire.is_empty() {
        Err(ScheduleCause::WireNumber)
    } else {
        Ok(Command::Turn)
    }
}

/// The command that three fields spell, as `enter`, `7` and `0`.
#[tactic(auto, unfolding(crate::specs::Reading::Command::spelled))]
fn command_from(op: &[u8], client: &[u8], wire: &[u8]) -> Result<Command, ScheduleCause>
    ensures value { result ≡ spelled op.now client.now wire.now }
    ensures no_read { IfErr result (λ cause. cause ≢ ScheduleCause.Read) }
{
    if op == b"enter".as_slice() {
        enter_from(client, wire)
    } else if op == b"step".as_slice() {
        step_from(client, wire)
    } else if op == b"turn".as_slice() {
        turn_from(client, wire)
    } else {
        Err(ScheduleCause::Op)
    }
}

/// The command of a record.
#[tactic(auto, unfolding(crate::specs::Reading::Command::command_in))]
pub(crate) fn command_of(fields: &ByteRecord) -> Result<Command, ScheduleCause>
    ensures value { result ≡ command_in (fields_of fields.now) }
    ensures no_read { IfErr result (λ cause. cause ≢ ScheduleCause.Read) }
{
    if fields.len() != 3 {
        return Err(ScheduleCause::FieldCount);
    }
    command_from(field(fields, 0), field(fields, 1), field(fields, 2))
}
