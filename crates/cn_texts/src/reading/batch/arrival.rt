//! One record of a batch: its header, or an arrival.

ghost use Rattle.std.specs.Prelude.{◌≡◌, ◌≢◌, ◌<◌, IfErr};
ghost use Rattle.csv.specs.Records.{fields_of};
ghost use Rattle.cn_texts.specs.Reading.Arrival.{arrival_in, arrival_with_entry, arriving, entry_by_rule, ruled_arrival};
ghost use Rattle.cn_texts.specs.Reading.Heading.{heading_of};
ghost use Rattle.cn_texts.specs.Reading.Number.{number_in};

use crate::reading::batch_fault::BatchCause;
use crate::reading::bounds::Bounds;
use crate::reading::number::number_of;
use crate::reading::records::{field, is_header, is_short_header};
use csv::ByteRecord;

/// How the records of a batch give the entry by which a client comes.
#[derive(Clone, Copy)]
pub enum Heading {
    /// `epoch,client,entry`: in a field of its own.
    WithEntry,
    /// `epoch,client`: by the rule that it is the client modulo the number of entries.
    ByRule,
}

/// What a record heads, if it is a header of a batch.
pub(crate) fn heading_of(fields: &ByteRecord) -> Option<Heading>
    ensures { result ≡ heading_of (fields_of fields.now) }
{
    if is_header(fields, b"epoch", b"client", b"entry") {
        Some(Heading::WithEntry)
    } else if is_short_header(fields, b"epoch", b"client") {
        Some(Heading::ByRule)
    } else {
        None
    }
}

/// A client that comes in an epoch by an entry.
#[derive(Clone, Copy)]
pub struct Arrival {
    /// The epoch's number.
    pub epoch: u64,
    /// The client.
    pub client: u64,
    /// The entry by which it comes.
    pub entry: u64,
}

/// The arrival that three fields spell. The first that is no number is the cause.
fn arrival_from(epoch: &[u8], client: &[u8], entry: &[u8]) -> Result<Arrival, BatchCause>
    ensures value { result ≡ arriving (number_in epoch.now) (number_in client.now) (number_in entry.now) }
    ensures no_read { IfErr result (λ cause. cause ≢ BatchCause.Read) }
{
    let epoch = number_of(epoch).ok_or(BatchCause::EpochNumber)?;
    let client = number_of(client).ok_or(BatchCause::ClientNumber)?;
    let entry = number_of(entry).ok_or(BatchCause::EntryNumber)?;
    Ok(Arrival {
        epoch,
        client,
        entry,
    })
}

/// The arrival of a record that gives its entry.
#[tactic(auto, unfolding(crate::specs::Reading::Arrival::arrival_with_entry))]
fn arrival_with_entry(fields: &ByteRecord) -> Result<Arrival, BatchCause>
    ensures value { result ≡ arrival_with_entry (fields_of fields.now) }
    ensures no_read { IfErr result (λ cause. cause ≢ BatchCause.Read) }
{
    if fields.len() != 3 {
        return Err(BatchCause::FieldCount);
    }
    arrival_from(field(fields, 0), field(fields, 1), field(fields, 2))
}

/// The arrival that two fields spell, by the entry that is the identity modulo the entries.
fn arrival_by_rule(epoch: &[u8], client: &[u8], entries: u32) -> Result<Arrival, BatchCause>
    requires { 0 < entries }
    ensures value { result
        ≡ arriving (number_in epoch.now) (number_in client.now) (entry_by_rule entries (number_in client.now)) }
    ensures no_read { IfErr result (λ cause. cause ≢ BatchCause.Read) }
{
    let epoch = number_of(epoch).ok_or(BatchCause::EpochNumber)?;
    let client = number_of(client).ok_or(BatchCause::ClientNumber)?;
    Ok(Arrival {
        epoch,
        client,
        entry: client % u64::from(entries),
    })
}

/// The arrival of a record whose entry follows by rule.
#[tactic(auto, unfolding(crate::specs::Reading::Arrival::ruled_arrival))]
fn ruled_arrival(fields: &ByteRecord, entries: u32) -> Result<Arrival, BatchCause>
    requires { 0 < entries }
    ensures value { result ≡ ruled_arrival entries (fields_of fields.now) }
    ensures no_read { IfErr result (λ cause. cause ≢ BatchCause.Read) }
{
    if fields.len() != 2 {
        return Err(BatchCause::FieldCount);
    }
    arrival_by_rule(field(fields, 0), field(fields, 1), entries)
}

/// The arrival of a record, of a batch with this heading within these bounds.
pub(crate) fn arrival_of(
    fields: &ByteRecord,
    heading: Heading,
    bounds: Bounds,
) -> Result<Arrival, BatchCause>
    requires { 0 < bounds.entries }
    ensures value { result ≡ arrival_in heading bounds (fields_of fields.now) }
    ensures no_read { IfErr result (λ cause. cause ≢ BatchCause.Read) }
{
    match heading {
        Heading::WithEntry => arrival_with_entry(fields),
        Heading::ByRule => ruled_arrival(fields, bounds.entries),
    }
}
