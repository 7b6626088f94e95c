//! The text of a tight list.

ghost use Rattle.std.specs.Prelude.{◌≡◌, ◌≤◌, map};
ghost use Rattle.std.specs.List.{flat_map, sum_by};
ghost use Rattle.cn_spec.specs.Step.{shares};
ghost use Rattle.cn_spec.specs.declared.limits.TheConstants.{MOST_ENDS};
ghost use Rattle.cn_texts.specs.Grants.TightText.{tight_counts, tight_end, tight_head, tight_line, tight_text};
ghost use Rattle.cn_texts.specs.Grants.Printed.{with_shares};
ghost use Rattle.cn_texts.specs.Writing.Pieces.{Puts, RestsIfFailed, nothing_put};
ghost use Rattle.cn_texts.specs.Writing.Written.{First, HasWritten, written_by};

use crate::grants::epochs::NamedEpoch;
use crate::writing::emitting::EmitFault;
use crate::writing::line::send_number;
use crate::writing::pieces::Pieces;
use cn_exit::expected;
use cn_spec::limits::MOST_ENDS;
use std::io::Write;

/// Sends the line of an epoch up to its counts.
pub fn send_tight_head<W: Write>(pieces: &mut Pieces, writer: &mut W, number: u64, clients: u64)
    ensures { Puts W.contents writer.old writer.new pieces.old pieces.new (tight_head number clients) }
{
    send_number(pieces, writer, "epoch ", number);
    send_number(pieces, writer, " clients ", clients);
    pieces.put(writer, b" counts");
}

/// Sends a space and a share for each exit, as ` 2 1 1 1` of 5 clients.
fn send_shares<W: Write>(pieces: &mut Pieces, writer: &mut W, width: u32, clients: u32)
    requires { width ≤ MOST_ENDS }
    ensures { Puts W.contents writer.old writer.new pieces.old pieces.new (tight_counts (shares clients width)) }
{
    for exit in 0..width {
        send_number(
            pieces,
            writer,
            " ",
            expected(width, u64::from(clients), exit),
        );
    }
}

/// Sends the line of an epoch, as `epoch 1 clients 5 counts 2 1 1 1`, unless a write failed.
fn send_named<W: Write>(pieces: &mut Pieces, writer: &mut W, width: u32, epoch: NamedEpoch)
    requires { width ≤ MOST_ENDS }
    ensures puts { Puts W.contents writer.old writer.new pieces.old pieces.new (tight_line (with_shares width epoch)) }
    ensures rests { RestsIfFailed writer.old writer.new pieces.old pieces.new }
{
    if pieces.has_failed() {
        return;
    }
    send_tight_head(pieces, writer, epoch.number, u64::from(epoch.clients));
    send_shares(pieces, writer, width, epoch.clients);
    pieces.put(writer, b"\n");
}

/// Sends the end line.
pub fn send_tight_end<W: Write>(pieces: &mut Pieces, writer: &mut W, epochs: usize, grants: u128)
    ensures { Puts W.contents writer.old writer.new pieces.old pieces.new (tight_end epochs grants) }
{
    send_number(pieces, writer, "tight epochs ", epochs);
    send_number(pieces, writer, " grants ", grants);
    pieces.put(writer, b"\n");
}

/// Sends the line of each epoch.
fn send_named_epochs<W: Write>(
    pieces: &mut Pieces,
    writer: &mut W,
    width: u32,
    epochs: &[NamedEpoch],
)
    requires { width ≤ MOST_ENDS }
    ensures { Puts W.contents writer.old writer.new pieces.old pieces.new
        (flat_map tight_line (map (with_shares width) epochs.now)) }
{
    for epoch in epochs {
        send_named(pieces, writer, width, *epoch);
    }
}

/// How many clients the epochs have in all, in 128 bits, which no number of epochs exceeds.
fn count_named(epochs: &[NamedEpoch]) -> u128
    ensures { result ≡ sum_by (λ e. e.clients) epochs.now }
{
    let mut clients = 0;
    for epoch in epochs {
        clients += u128::from(epoch.clients);
    }
    clients
}

/// Writes the text of a tight list in pieces, and flushes once at the end: for each epoch its number, its number of
/// clients, and how many of its names are `i` modulo the width, for each `i` below it, which is exit i's share of so
/// many; and an end line with the numbers of epochs and of grants. It takes no memory.
///
/// # Errors
/// `EmitFault` if a write fails, is interrupted or takes no byte: nothing is written after it, and the bytes written
/// until then are the first of the text. A failed flush is reported with the whole length of the text.
pub fn write_tight<W: Write>(
    writer: &mut W,
    pieces: Pieces,
    width: u32,
    epochs: &[NamedEpoch],
) -> Result<(), EmitFault>
    requires fresh { pieces ≡ nothing_put }
    requires width { width ≤ MOST_ENDS }
    ensures { let written = written_by (λ fault. First fault.written) result in
        HasWritten W.contents (λ text. text ≡ tight_text (map (with_shares width) epochs.now)) written
        writer.old writer.new }
{
    let mut pieces = pieces;
    send_named_epochs(&mut pieces, writer, width, epochs);
    let grants = count_named(epochs);
    send_tight_end(&mut pieces, writer, epochs.len(), grants);
    pieces.finish(writer)
}
