//! The text of a replay.

ghost use Rattle.std.specs.Prelude.{◌≡◌, ◌≤◌};
ghost use Rattle.std.specs.List.{All};
ghost use Rattle.cn_spec.specs.declared.limits.TheConstants.{MOST_ENDS};
ghost use Rattle.cn_texts.specs.Writing.Outcome.{exit_lines};
ghost use Rattle.cn_texts.specs.Writing.Pieces.{Puts, RestsIfFailed, nothing_put};
ghost use Rattle.cn_texts.specs.Writing.Replay.{IsShowable, IsShowableRecord, answer_line, answer_lines, end_line, record_lines, replay_text, shown_counts};
ghost use Rattle.cn_texts.specs.Writing.Written.{First, HasWritten, written_by};

use crate::writing::emitting::EmitFault;
use crate::writing::events::{send_enter, send_step};
use crate::writing::line::{send_heading, send_line, send_number, send_numbered};
use crate::writing::outcome::{send_counts, send_exits, send_holders};
use crate::writing::pieces::Pieces;
use cn_ledger::{Answer, Command, EpochRecord, TurnFault};
use cn_spec::limits::MOST_ENDS;
use cn_tables::Counting;
use std::io::Write;

/// The epoch that stands open at the end of a replay.
#[derive(Clone, Copy, Debug, PartialEq, Eq)]
pub struct OpenEpoch {
    /// How many epochs ended before it.
    pub number: u64,
    /// How many clients entered it.
    pub entered: u64,
    /// How many of them are inside.
    pub inside: u64,
}

/// Sends a line for each exit and its count, which is its share of the clients if the counts are left out.
fn send_shown_counts<W: Write>(pieces: &mut Pieces, writer: &mut W, width: u32, epoch: &EpochRecord)
    requires width { width ≤ MOST_ENDS }
    requires showable { IsShowableRecord width epoch.now }
    ensures { Puts W.contents writer.old writer.new pieces.old pieces.new
        (exit_lines width (shown_counts width epoch.now)) }
{
    if epoch.counts.is_empty() {
        send_counts(pieces, writer, width, 0, epoch.clients);
    } else {
        send_exits(pieces, writer, width, &epoch.counts);
    }
}

/// Sends what an epoch gave out: the line of its turn, as `turn epoch 0 clients 1`, its exits and its names.
fn send_record<W: Write>(pieces: &mut Pieces, writer: &mut W, width: u32, epoch: &EpochRecord)
    requires width { width ≤ MOST_ENDS }
    requires showable { IsShowableRecord width epoch.now }
    ensures { Puts W.contents writer.old writer.new pieces.old pieces.new (record_lines width epoch.now) }
{
    send_line(
        pieces,
        writer,
        "turn epoch ",
        epoch.number,
        " clients ",
        epoch.clients,
    );
    send_shown_counts(pieces, writer, width, epoch);
    send_holders(pieces, writer, &epoch.holders);
}

/// Sends the lines of a turn and its answer: what its epoch gave out, or that it is refused. An answer of another
/// command, or want of memory, has none.
#[tactic(auto, unfolding(crate::specs::Writing::Replay::answer_line))]
fn send_turn<W: Write>(pieces: &mut Pieces, writer: &mut W, width: u32, answer: &Answer)
    requires width { width ≤ MOST_ENDS }
    requires showable { IsShowable width answer.now }
    ensures { Puts W.contents writer.old writer.new pieces.old pieces.new (answer_line width Command.Turn answer.now) }
{
    match answer {
        Answer::Turned(epoch) => send_record(pieces, writer, width, epoch),
        Answer::TurnRefused(fault) => {
            if let TurnFault::NotQuiet(inside) = *fault {
                send_numbered(pieces, writer, "refused turn NotQuiet ", inside, "\n");
            }
        }
        Answer::Replied(_) => {}
    }
}

/// Sends the lines of a command and its answer, unless a write failed. An answer that does not fit its command, or is
/// want of memory, has none.
#[tactic(auto, unfolding(crate::specs::Writing::Replay::answer_line))]
fn send_answer<W: Write>(
    pieces: &mut Pieces,
    writer: &mut W,
    width: u32,
    command: Command,
    answer: &Answer,
)
    requires width { width ≤ MOST_ENDS }
    requires showable { IsShowable width answer.now }
    ensures puts { Puts W.contents writer.old writer.new pieces.old pieces.new (answer_line width command answer.now) }
    ensures rests { RestsIfFailed writer.old writer.new pieces.old pieces.new }
{
    if pieces.has_failed() {
        return;
    }
    match command {
        Command::Enter { client, entry } => {
            if let Answer::Replied(reply) = answer {
                send_enter(pieces, writer, client, entry, *reply);
            }
        }
        Command::Step { client } => {
            if let Answer::Replied(reply) = answer {
                send_step(pieces, writer, client, *reply);
            }
        }
        Command::Turn => send_turn(pieces, writer, width, answer),
    }
}

/// Sends the lines of all commands and their answers.
fn send_answers<W: Write>(
    pieces: &mut Pieces,
    writer: &mut W,
    width: u32,
    commands: &[Command],
    answers: &[Answer],
)
    requires width { width ≤ MOST_ENDS }
    requires showable { All (IsShowable width) answers.now }
    ensures { Puts W.contents writer.old writer.new pieces.old pieces.new
        (answer_lines width commands.now answers.now) }
{
    for position in 0..commands.len().min(answers.len()) {
        send_answer(
            pieces,
            writer,
            width,
            commands[position],
            &answers[position],
        );
    }
}

/// Sends a line as `end epoch 1 entered 0 inside 0`.
fn send_end<W: Write>(pieces: &mut Pieces, writer: &mut W, last: OpenEpoch)
    ensures { Puts W.contents writer.old writer.new pieces.old pieces.new
        (end_line last.number last.entered last.inside) }
{
    send_number(pieces, writer, "end epoch ", last.number);
    send_number(pieces, writer, " entered ", last.entered);
    send_number(pieces, writer, " inside ", last.inside);
    pieces.put(writer, b"\n");
}

/// Writes the text of a replay on a network in pieces, and flushes once at the end: its heading, the lines of each
/// command and its answer, and an end line. A turn that is done has the record of its epoch: a line for each exit and
/// its count, and one for each name and its holder. The end line says how many epochs ended, and how many clients of
/// the open one entered and are inside.
///
/// An answer that does not fit its command, or is want of memory, has no line. The record of a turn may leave out its
/// counts: then the shares of its clients are written, of which there are at most
/// [`cn_spec::limits::MOST_ARRIVALS`]. It takes no memory.
///
/// # Errors
/// `EmitFault` if a write fails, is interrupted or takes no byte: nothing is written after it, and the bytes written
/// until then are the first of the text. A failed flush is reported with the whole length of the text.
pub fn write_replay<W: Write>(
    writer: &mut W,
    pieces: Pieces,
    network: &Counting,
    commands: &[Command],
    answers: &[Answer],
    last: OpenEpoch,
) -> Result<(), EmitFault>
    requires fresh { pieces ≡ nothing_put }
    requires showable { All (IsShowable network.now.table.width) answers.now }
    ensures { let written = written_by (λ fault. First fault.written) result in
        HasWritten W.contents (λ text. text
        ≡ replay_text network.now commands.now answers.now last.number last.entered last.inside) written
        writer.old writer.new }
{
    let mut pieces = pieces;
    send_heading(&mut pieces, writer, network);
    send_answers(&mut pieces, writer, network.width(), commands, answers);
    send_end(&mut pieces, writer, last);
    pieces.finish(writer)
}
