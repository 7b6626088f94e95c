//! Lines of records: each record of a line is linked both ways with the one after it.

ghost use Rattle.std.specs.Prelude.{◌≡◌, ℕ, ◌+◌, ◌/◌, ◌<◌, ◌≤◌, ◌^◌, ◌==◌, ◌||◌, List, [], length, replicate, OnErr, OnOk};
ghost use Rattle.cn_spec.specs.Sums.{times};
ghost use Rattle.cn_yard.specs.Chains.{but, put_last};
ghost use Rattle.cn_yard.specs.Lines.{IsOff, IsOn, Linked, OffLine, count_of, line_with, line_without, no_line};
ghost use Rattle.cn_yard.specs.Records.{wire_of};

use crate::records::{Record, link, set_wire};
use std::alloc::AllocError;

/// How many records stand on a line, and the first and the last of them if there are any.
#[derive(Clone, Copy, Debug)]
pub(crate) struct Line {
    pub(crate) first: u32,
    pub(crate) last: u32,
    pub(crate) count: u32,
}

/// How many records stand on a line: 0 if there are no lines.
pub(crate) fn count_on(lines: &[Line], number: u32) -> u32
    ensures { result ≡ count_of lines.now number }
{
    match lines.get(number as usize) {
        Some(line) => line.count,
        None => 0,
    }
}

/// Makes a line for each wire and one for the free records, with their marks, if there are none: nobody stands on them.
///
/// # Errors
/// `AllocError` if there are none, and they get no memory. Then there are none.
pub(crate) fn make_lines(
    lines: &mut Vec<Line>,
    marks: &mut Vec<u64>,
    wires: u32,
) -> Result<(), AllocError>
    ensures same { 0 < length lines.old.items
        → (lines.new.items ≡ lines.old.items) × (marks.new.items ≡ marks.old.items) }
    ensures made { lines.old.items ≡ [] → marks.old.items ≡ [] → OnOk result
        ((lines.new.items ≡ replicate (wires + 1) no_line) × (marks.new.items ≡ replicate (wires / 64 + 1) 0)) }
    ensures err { OnErr result ((lines.new.items ≡ lines.old.items) × (marks.new.items ≡ marks.old.items)) }
{
    if !lines.is_empty() {
        return Ok(());
    }
    let words = wires as usize / 64 + 1;
    marks.reserve(words)?;
    let line = Line {
        first: 0,
        last: 0,
        count: 0,
    };
    lines.resize(wires as usize + 1, line)?;
    marks.resize(words, 0)
}

/// Whether a number is the first or the last of a line.
fn is_end(line: Line, number: u32) -> bool
    ensures { result ≡ (line.first == number || line.last == number) }
{
    line.first == number || line.last == number
}

/// A line without one of its records.
fn shorter(line: Line, number: u32, taken: Record) -> Line
    requires { 1 ≤ line.count }
    ensures { result ≡ line_without line number taken.prev taken.next }
{
    Line {
        first: if line.first == number {
            taken.next
        } else {
            line.first
        },
        last: if line.last == number {
            taken.prev
        } else {
            line.last
        },
        count: line.count - 1,
    }
}

/// A line with one more record, at its end.
fn longer(line: Line, number: u32) -> Line
    requires { line.count + 1 < 2 ^ 32 }
    ensures { result ≡ line_with line number }
{
    Line {
        first: if line.count == 0 { number } else { line.first },
        last: number,
        count: line.count + 1,
    }
}

/// Takes a record off its line.
pub(crate) fn unlink(records: &mut [Record], lines: &mut [Line], number: u32)
    requires number { number < length records.old }
    requires wire { wire_of records.old number < length lines.old }
    requires linked { (order : ℕ → List ℕ) × Linked records.old lines.old order
        × (times number (order (wire_of records.old number)) ≡ 1) }
    ensures kept { IsOff records.old lines.old records.new lines.new number }
    ensures linked { (order : ℕ → List ℕ) → Linked records.old lines.old order
        → times number (order (wire_of records.old number)) ≡ 1
        → Linked records.new lines.new (λ u. but number (order u)) }
{
    let record = records[number as usize];
    let at = record.wire as usize;
    let line = lines[at];
    if !is_end(line, number) {
        link(records, record.prev, record.next);
    }
    lines[at] = shorter(line, number, record);
}

/// Puts a record that is on no line last on one.
pub(crate) fn append(records: &mut [Record], lines: &mut [Line], number: u32, wire: u32)
    requires number { number < length records.old }
    requires wire { wire < length lines.old }
    requires count { count_of lines.old wire + 1 < 2 ^ 32 }
    requires linked { (order : ℕ → List ℕ) × Linked records.old lines.old order
        × OffLine lines.old order number }
    ensures kept { IsOn records.old lines.old records.new lines.new number wire }
    ensures linked { (order : ℕ → List ℕ) → Linked records.old lines.old order
        → OffLine lines.old order number
        → Linked records.new lines.new (put_last order number wire) }
{
    let at = wire as usize;
    let line = lines[at];
    if line.count > 0 {
        link(records, line.last, number);
    }
    set_wire(records, number, wire);
    lines[at] = longer(line, number);
}
