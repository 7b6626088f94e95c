//! The text of a report.

ghost use Rattle.std.specs.Prelude.{◌≡◌, ◌+◌, ◌≤◌, ◌++◌, List, length};
ghost use Rattle.std.specs.List.{flat_map};
ghost use Rattle.cn_spec.specs.Step.{shares_after};
ghost use Rattle.cn_spec.specs.Sums.{when};
ghost use Rattle.cn_spec.specs.declared.limits.TheConstants.{MOST_ENDS, MOST_NAMED};
ghost use Rattle.cn_ledger.specs.declared.record.EpochRecord.{EpochRecord};
ghost use Rattle.cn_texts.specs.Reading.Batch.{clients_of_epochs};
ghost use Rattle.cn_texts.specs.Writing.EpochRecords.{AreRecordsOf};
ghost use Rattle.cn_texts.specs.Writing.Outcome.{exit_lines, name_lines};
ghost use Rattle.cn_texts.specs.Writing.Pieces.{Puts, RestsIfFailed, nothing_put};
ghost use Rattle.cn_texts.specs.Writing.Report.{epoch_line, epoch_lines, report_end, report_text};
ghost use Rattle.cn_texts.specs.Writing.Written.{First, HasWritten, written_by};

use crate::reading::BatchEpoch;
use crate::writing::emitting::EmitFault;
use crate::writing::line::{send_heading, send_line, send_number};
use crate::writing::outcome::{send_counts, send_holders};
use crate::writing::pieces::Pieces;
use cn_spec::limits::{MOST_ENDS, MOST_NAMED};
use cn_tables::Counting;
use std::io::Write;

/// Sends the line of an epoch.
#[tactic(auto, unfolding(crate::specs::Writing::Report::epoch_line))]
pub fn send_epoch_line<W: Write>(pieces: &mut Pieces, writer: &mut W, number: u64, clients: u64)
    ensures { Puts W.contents writer.old writer.new pieces.old pieces.new (epoch_line number clients) }
{
    send_line(pieces, writer, "epoch ", number, " clients ", clients);
}

/// Sends what an epoch gave out after `before` clients: its line, its exits and its names. It sends nothing if
/// a write failed.
fn send_epoch<W: Write>(
    pieces: &mut Pieces,
    writer: &mut W,
    width: u32,
    before: u64,
    number: u64,
    holders: &[u64],
)
    requires width { width ≤ MOST_ENDS }
    requires few { before + length holders.now ≤ MOST_NAMED }
    ensures puts { let clients = length holders.now in
        Puts W.contents writer.old writer.new pieces.old pieces.new (epoch_line number clients
        ++ (exit_lines width (shares_after before clients width) ++ name_lines clients holders.now)) }
    ensures rests { RestsIfFailed writer.old writer.new pieces.old pieces.new }
{
    if pieces.has_failed() {
        return;
    }
    let clients = holders.len() as u64;
    send_epoch_line(pieces, writer, number, clients);
    send_counts(pieces, writer, width, before, clients);
    send_holders(pieces, writer, holders);
}

/// How many clients come before the next epoch, if so many have come.
fn carried(carries: bool, clients: u64) -> u64
    ensures { result ≡ when carries clients }
{
    if carries { clients } else { 0 }
}

/// Sends what each epoch gave out. The holders of each follow those of the one before.
fn send_epochs<W: Write>(
    pieces: &mut Pieces,
    writer: &mut W,
    width: u32,
    carries: bool,
    epochs: &[BatchEpoch],
    holders: &[u64],
)
    requires width { width ≤ MOST_ENDS }
    requires as_many { clients_of_epochs epochs.now ≡ length holders.now }
    requires few { clients_of_epochs epochs.now ≤ MOST_NAMED }
    ensures { (records : List EpochRecord)
        → AreRecordsOf carries width 0 epochs.now records holders.now
        → Puts W.contents writer.old writer.new pieces.old pieces.new
        (flat_map (epoch_lines width) records) }
{
    let (mut before, mut left) = (0, holders);
    for epoch in epochs {
        let (own, others) = left.split_at(epoch.clients.len());
        send_epoch(pieces, writer, width, before, epoch.number, own);
        before = carried(carries, before + own.len() as u64);
        left = others;
    }
}

/// Sends the end line.
pub fn send_report_end<W: Write>(pieces: &mut Pieces, writer: &mut W, epochs: u64, grants: u128)
    ensures { Puts W.contents writer.old writer.new pieces.old pieces.new (report_end epochs grants) }
{
    send_number(pieces, writer, "end epochs ", epochs);
    send_number(pieces, writer, " grants ", grants);
    pieces.put(writer, b"\n");
}

/// Writes the report of epochs on a network in pieces, and flushes once at the end: its heading; for each epoch its
/// number and its number of clients, a line for each exit and its count, and one for each name and its holder; and an
/// end line with the numbers of epochs and of grants.
///
/// Of an epoch of k clients that come after m others each exit has its share of m + k less its share of m: if the
/// counters are carried, m is the number of all clients of the epochs before, else 0. The holders of each epoch's names
/// follow those of the epoch before. It takes no memory.
///
/// # Errors
/// `EmitFault` if a write fails, is interrupted or takes no byte: nothing is written after it, and the bytes written
/// until then are the first of the text. A failed flush is reported with the whole length of the text.
pub fn write_report<W: Write>(
    writer: &mut W,
    pieces: Pieces,
    network: &Counting,
    carries: bool,
    epochs: &[BatchEpoch],
    holders: &[u64],
) -> Result<(), EmitFault>
    requires fresh { pieces ≡ nothing_put }
    requires as_many { clients_of_epochs epochs.now ≡ length holders.now }
    requires few { clients_of_epochs epochs.now ≤ MOST_NAMED }
    ensures { (records : List EpochRecord)
        → AreRecordsOf carries network.now.table.width 0 epochs.now records holders.now
        → let written = written_by (λ fault. First fault.written) result in
        HasWritten W.contents (λ text. text ≡ report_text network.now records) written writer.old writer.new }
{
    let mut pieces = pieces;
    send_heading(&mut pieces, writer, network);
    send_epochs(
        &mut pieces,
        writer,
        network.width(),
        carries,
        epochs,
        holders,
    );
    send_report_end(
        &mut pieces,
        writer,
        epochs.len() as u64,
        holders.len() as u128,
    );
    pieces.finish(writer)
}
