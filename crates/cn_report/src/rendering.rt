//! The texts of jobs in vectors.

ghost use Rattle.std.specs.Prelude.{◌≡◌, All, IfOk};
ghost use Rattle.std.specs.List.{flat_map, sum_by};
ghost use Rattle.cn_ledger.specs.declared.record.EpochRecord.{EpochRecord};
ghost use Rattle.cn_texts.specs.Grants.ListText.{grant_lines, grants_text};
ghost use Rattle.cn_texts.specs.Writing.Pieces.{Puts};
ghost use Rattle.cn_texts.specs.Writing.Replay.{replay_text};
ghost use Rattle.cn_texts.specs.Writing.Report.{epoch_lines, report_text};
ghost use Rattle.cn_texts.specs.Writing.Wiring.{wiring_text};
ghost use Rattle.cn_report.specs.Callers.{HasHolders, IsWhole, IsWholeRecord};

use cn_ledger::{Answer, Command, EpochRecord};
use cn_tables::Counting;
use cn_texts::parts::{
    send_epoch_line, send_exits, send_header, send_heading, send_holders, send_names,
    send_report_end,
};
use cn_texts::{OpenEpoch, Pieces, write_replay, write_wiring};
use std::alloc::{AllocError, Global};
use std::io::Write;

/// Sends the grants of all records.
fn send_names_of<W: Write>(pieces: &mut Pieces, writer: &mut W, records: &[EpochRecord])
    requires { All HasHolders records.now }
    ensures { Puts W.contents writer.old writer.new pieces.old pieces.new
        (flat_map (λ r. grant_lines r.number r.clients r.holders.items) records.now) }
{
    for epoch in records {
        send_names(pieces, writer, epoch.number, &epoch.holders);
    }
}

/// The grant list of epochs, as [`cn_texts::write_grants`] writes it. Each record has a holder for each of its clients.
///
/// # Errors
/// `AllocError` if the text gets no memory.
pub fn render_grants(alloc: Global, records: &[EpochRecord]) -> Result<Vec<u8>, AllocError>
    requires { All HasHolders records.now }
    ensures { IfOk result (λ text. text.items ≡ grants_text records.now) }
{
    let mut pieces = Pieces::new(alloc)?;
    let mut text = Vec::new(alloc);
    send_header(&mut pieces, &mut text);
    send_names_of(&mut pieces, &mut text, records);
    match pieces.finish(&mut text) {
        Ok(()) => Ok(text),
        // A vector refuses a write only for want of memory.
        Err(_) => Err(AllocError),
    }
}

/// Sends what an epoch gave out: its line, its exits and its names.
fn send_whole_record<W: Write>(pieces: &mut Pieces, writer: &mut W, width: u32, epoch: &EpochRecord)
    requires { IsWholeRecord width epoch.now }
    ensures { Puts W.contents writer.old writer.new pieces.old pieces.new
        (epoch_lines width epoch.now) }
{
    send_epoch_line(pieces, writer, epoch.number, epoch.clients);
    send_exits(pieces, writer, width, &epoch.counts);
    send_holders(pieces, writer, &epoch.holders);
}

/// Sends what each epoch gave out.
fn send_whole_records<W: Write>(
    pieces: &mut Pieces,
    writer: &mut W,
    width: u32,
    records: &[EpochRecord],
)
    requires { All (IsWholeRecord width) records.now }
    ensures { Puts W.contents writer.old writer.new pieces.old pieces.new
        (flat_map (epoch_lines width) records.now) }
{
    for epoch in records {
        send_whole_record(pieces, writer, width, epoch);
    }
}

/// How many clients the epochs had in all, in 128 bits, which no number of epochs exceeds.
fn count_clients(records: &[EpochRecord]) -> u128
    ensures { result ≡ sum_by (λ r. r.clients) records.now }
{
    let mut clients = 0;
    for epoch in records {
        clients += u128::from(epoch.clients);
    }
    clients
}

/// The report of epochs on a network, as [`cn_texts::write_report`] writes it. Each record has a count for each exit of
/// the network, and a holder for each of its clients.
///
/// # Errors
/// `AllocError` if the text gets no memory.
pub fn render_report(
    alloc: Global,
    network: &Counting,
    records: &[EpochRecord],
) -> Result<Vec<u8>, AllocError>
    requires { All (IsWholeRecord network.now.table.width) records.now }
    ensures { IfOk result (λ text. text.items ≡ report_text network.now records.now) }
{
    let mut pieces = Pieces::new(alloc)?;
    let mut text = Vec::new(alloc);
    send_heading(&mut pieces, &mut text, network);
    send_whole_records(&mut pieces, &mut text, network.width(), records);
    let grants = count_clients(records);
    send_report_end(&mut pieces, &mut text, records.len() as u64, grants);
    match pieces.finish(&mut text) {
        Ok(()) => Ok(text),
        // A vector refuses a write only for want of memory.
        Err(_) => Err(AllocError),
    }
}

/// The text of a replay on a network, as [`write_replay`] writes it. Each record has a count for each exit of the
/// network, and a holder for each of its clients; this holds of the answers of epochs of the network.
///
/// # Errors
/// `AllocError` if the text gets no memory.
pub fn render_replay(
    alloc: Global,
    network: &Counting,
    commands: &[Command],
    answers: &[Answer],
    number: u64,
    entered: u64,
    inside: u64,
) -> Result<Vec<u8>, AllocError>
    requires whole { All (IsWhole network.now.table.width) answers.now }
    ensures { IfOk result (λ text. text.items
        ≡ replay_text network.now commands.now answers.now number entered inside) }
{
    // A network has some exit, so no record leaves out its counts.
    let _ = network.width();
    let pieces = Pieces::new(alloc)?;
    let mut text = Vec::new(alloc);
    let last = OpenEpoch {
        number,
        entered,
        inside,
    };
    match write_replay(&mut text, pieces, network, commands, answers, last) {
        Ok(()) => Ok(text),
        // A vector refuses a write only for want of memory.
        Err(_) => Err(AllocError),
    }
}

/// The text of a network's wiring, as [`write_wiring`] writes it.
///
/// # Errors
/// `AllocError` if the text gets no memory.
pub fn render_wiring(alloc: Global, network: &Counting) -> Result<Vec<u8>, AllocError>
    ensures { IfOk result (λ text. text.items ≡ wiring_text network.now) }
{
    let pieces = Pieces::new(alloc)?;
    let mut text = Vec::new(alloc);
    match write_wiring(&mut text, pieces, network) {
        Ok(()) => Ok(text),
        // A vector refuses a write only for want of memory.
        Err(_) => Err(AllocError),
    }
}
