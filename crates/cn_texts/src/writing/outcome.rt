//! The lines of what an epoch gave out: its exits and their counts, its names and their holders.

ghost use Rattle.std.specs.Prelude.{◌≡◌, ◌+◌, ◌<◌, ◌≤◌, length, slice_index};
ghost use Rattle.cn_spec.specs.Step.{shares_after};
ghost use Rattle.cn_spec.specs.declared.limits.TheConstants.{MOST_ARRIVALS, MOST_ENDS};
ghost use Rattle.cn_texts.specs.Writing.Pieces.{Puts};
ghost use Rattle.cn_texts.specs.Writing.Outcome.{exit_line, exit_lines, name_line, name_lines};

use crate::writing::line::send_line;
use crate::writing::pieces::Pieces;
use cn_exit::expected;
use cn_spec::limits::{MOST_ARRIVALS, MOST_ENDS};
use std::io::Write;

/// Sends a line as `exit 0 count 2`.
#[tactic(auto, unfolding(crate::specs::Writing::Outcome::exit_line))]
fn send_count<W: Write>(pieces: &mut Pieces, writer: &mut W, exit: u32, count: u64)
    ensures { Puts W.contents writer.old writer.new pieces.old pieces.new (exit_line exit count) }
{
    send_line(pieces, writer, "exit ", u64::from(exit), " count ", count);
}

/// Sends a line for each exit and its count.
pub fn send_exits<W: Write>(pieces: &mut Pieces, writer: &mut W, width: u32, counts: &[u64])
    requires { length counts.now ≡ width }
    ensures { Puts W.contents writer.old writer.new pieces.old pieces.new (exit_lines width counts.now) }
{
    for exit in 0..width {
        send_count(pieces, writer, exit, counts[exit as usize]);
    }
}

/// How many of `clients` tokens that come after `before` others leave by an exit.
#[inline]
fn count_after(width: u32, before: u64, clients: u64, exit: u32) -> u64
    requires width { width ≤ MOST_ENDS }
    requires exit { exit < width }
    requires few { before + clients ≤ MOST_ARRIVALS }
    ensures { result ≡ slice_index (shares_after before clients width) exit }
{
    expected(width, before + clients, exit) - expected(width, before, exit)
}

/// Sends a line for each exit and how many of `clients` tokens that come after `before` others leave by it.
pub(crate) fn send_counts<W: Write>(
    pieces: &mut Pieces,
    writer: &mut W,
    width: u32,
    before: u64,
    clients: u64,
)
    requires width { width ≤ MOST_ENDS }
    requires few { before + clients ≤ MOST_ARRIVALS }
    ensures { Puts W.contents writer.old writer.new pieces.old pieces.new
        (exit_lines width (shares_after before clients width)) }
{
    for exit in 0..width {
        let count = count_after(width, before, clients, exit);
        send_count(pieces, writer, exit, count);
    }
}

/// Sends a line as `name 0 client 7`.
#[tactic(auto, unfolding(crate::specs::Writing::Outcome::name_line))]
fn send_holder<W: Write>(pieces: &mut Pieces, writer: &mut W, name: u64, client: u64)
    ensures { Puts W.contents writer.old writer.new pieces.old pieces.new (name_line name client) }
{
    send_line(pieces, writer, "name ", name, " client ", client);
}

/// Sends a line for each name and its holder.
pub fn send_holders<W: Write>(pieces: &mut Pieces, writer: &mut W, holders: &[u64])
    ensures { Puts W.contents writer.old writer.new pieces.old pieces.new
        (name_lines (length holders.now) holders.now) }
{
    for name in 0..holders.len() {
        send_holder(pieces, writer, name as u64, holders[name]);
    }
}
