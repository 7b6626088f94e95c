//! The parts of lines, and lines that are made from their ends in a buffer, so that each is put at once.

ghost use Rattle.std.specs.Prelude.{◌≡◌, ◌+◌, ◌<◌, ◌≤◌, ◌++◌, codes, decimal, drop, length};
ghost use Rattle.cn_spec.specs.declared.limits.TheConstants.{MOST_DIGITS};
ghost use Rattle.cn_texts.specs.Grants.ListText.{grant_line};
ghost use Rattle.cn_texts.specs.Writing.Pieces.{Puts};
ghost use Rattle.cn_texts.specs.Writing.Text.{heading};

use crate::writing::pieces::Pieces;
use cn_tables::Counting;
use itoa::{Buffer, Integer, write_digits};
use std::io::Write;

/// Three numbers of 20 digits, and a byte after each; or two, the most words, and a line feed.
const ROOM: usize = 64;

/// Where the line feed stands.
const LAST: usize = ROOM - 1;

/// How many bytes the words have at most of a line that is made in a buffer.
const MOST_WORDS: usize = 23;

/// Writes a word and a number so that they end at `end`, and returns where they start.
#[inline(always)]
fn write_part(word: &str, number: u64, line: &mut [u8], end: usize) -> usize
    requires room { length word.now + MOST_DIGITS ≤ end }
    requires within { end < length line.old }
    ensures start { end ≤ result + length word.now + MOST_DIGITS }
    ensures within { result ≤ end }
    ensures written { drop result line.new ≡ word.now ++ (decimal number ++ drop end line.old) }
    ensures same { length line.new ≡ length line.old }
{
    let middle = write_digits(number, line, end);
    let start = middle - word.len();
    line[start..middle].copy_from_slice(word.as_bytes());
    start
}

/// Makes a line of two words, each with a number after it, before the line feed at the end of a buffer, and returns
/// where it starts.
#[inline(always)]
fn make_line(line: &mut [u8], first: &str, number: u64, second: &str, other: u64) -> usize
    requires room { length line.old ≡ ROOM }
    requires feed { drop LAST line.old ≡ codes "\n" }
    requires words { length first.now + length second.now ≤ MOST_WORDS }
    ensures written { drop result line.new
        ≡ first.now ++ (decimal number ++ (second.now ++ (decimal other ++ codes "\n"))) }
    ensures within { result ≤ ROOM }
{
    let middle = write_part(second, other, line, LAST);
    write_part(first, number, line, middle)
}

/// Makes a record of three numbers before the line feed at the end of a buffer, and returns where it starts.
#[inline(always)]
#[tactic(auto, unfolding(crate::specs::Grants::ListText::grant_line))]
fn make_grant(line: &mut [u8], epoch: u64, client: u64, name: u64) -> usize
    requires room { length line.old ≡ ROOM }
    requires feed { drop LAST line.old ≡ codes "\n" }
    ensures written { drop result line.new ≡ grant_line epoch client name }
    ensures within { result ≤ ROOM }
{
    let third = write_part(",", name, line, LAST);
    let second = write_part(",", client, line, third);
    write_part("", epoch, line, second)
}

/// Sends a line of two words, each with a number after it.
#[inline(always)]
pub(crate) fn send_line<W: Write>(
    pieces: &mut Pieces,
    writer: &mut W,
    first: &str,
    number: u64,
    second: &str,
    other: u64,
)
    requires { length first.now + length second.now ≤ MOST_WORDS }
    ensures { Puts W.contents writer.old writer.new pieces.old pieces.new
        (first.now ++ (decimal number ++ (second.now ++ (decimal other ++ codes "\n")))) }
{
    let mut line = [b'\n'; ROOM];
    let start = make_line(&mut line, first, number, second, other);
    pieces.put(writer, &line[start..]);
}

/// Sends a record of three numbers.
#[inline(always)]
pub(crate) fn send_grant<W: Write>(
    pieces: &mut Pieces,
    writer: &mut W,
    epoch: u64,
    client: u64,
    name: u64,
)
    ensures { Puts W.contents writer.old writer.new pieces.old pieces.new
        (grant_line epoch client name) }
{
    let mut line = [b'\n'; ROOM];
    let start = make_grant(&mut line, epoch, client, name);
    pieces.put(writer, &line[start..]);
}

/// Sends a word and a number.
pub fn send_number<W: Write, I: Integer>(pieces: &mut Pieces, writer: &mut W, word: &str, number: I)
    requires { length word.now ≤ MOST_WORDS }
    ensures { Puts W.contents writer.old writer.new pieces.old pieces.new (word.now ++ I.text number) }
{
    pieces.put(writer, word.as_bytes());
    pieces.put(writer, Buffer::new().format(number).as_bytes());
}

/// Sends a word, a number, and what ends the line.
pub(crate) fn send_numbered<W: Write, I: Integer>(
    pieces: &mut Pieces,
    writer: &mut W,
    word: &str,
    number: I,
    end: &str,
)
    requires { (length word.now ≤ MOST_WORDS) × (length end.now ≤ MOST_WORDS) }
    ensures { Puts W.contents writer.old writer.new pieces.old pieces.new
        (word.now ++ (I.text number ++ end.now)) }
{
    pieces.put(writer, word.as_bytes());
    pieces.put(writer, Buffer::new().format(number).as_bytes());
    pieces.put(writer, end.as_bytes());
}

/// Sends the heading of a network.
pub fn send_heading<W: Write>(pieces: &mut Pieces, writer: &mut W, network: &Counting)
    ensures { Puts W.contents writer.old writer.new pieces.old pieces.new (heading network.now) }
{
    pieces.put(writer, b"network ");
    pieces.put(writer, network.kind().word().as_bytes());
    send_number(pieces, writer, " width ", network.width());
    send_number(pieces, writer, " balancers ", network.balancers());
    send_number(pieces, writer, " depth ", network.depth());
    pieces.put(writer, b"\n");
}
