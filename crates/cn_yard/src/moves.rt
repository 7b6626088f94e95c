//! Records that move from line to line, with the marks of the lines on which any stand.

ghost use Rattle.std.specs.Prelude.{◌≡◌, ℕ, ◌+◌, ◌<◌, ◌≤◌, ◌-◌, List, length, vec_capacity, vec_len, OnErr, OnOk};
ghost use Rattle.cn_spec.specs.declared.limits.TheConstants.{MOST_TOKENS};
ghost use Rattle.cn_yard.specs.Chains.{moved, put_last};
ghost use Rattle.cn_yard.specs.Lines.{count_of};
ghost use Rattle.cn_yard.specs.Moving.{Fills, IsAdded, IsLined, IsMore, IsMove};

use crate::lines::{Line, append, unlink};
use crate::marks::mark;
use crate::records::Record;
use std::alloc::AllocError;

/// Takes a record off its line and puts it last on one.
pub(crate) fn relink(
    records: &mut [Record],
    lines: &mut [Line],
    marks: &mut [u64],
    number: u32,
    wire: u32,
)
    requires number { number < length records.old }
    requires wire { wire < length lines.old }
    requires lined { (order : ℕ → List ℕ) × IsLined records.old lines.old marks.old order }
    ensures lined { (order : ℕ → List ℕ) → IsLined records.old lines.old marks.old order
        → IsLined records.new lines.new marks.new (moved order number wire) }
    ensures kept { IsMove records.old lines.old records.new lines.new number wire }
    ensures words { length marks.new ≡ length marks.old }
{
    let from = records[number as usize].wire;
    unlink(records, lines, number);
    let left = lines[from as usize].count > 0;
    mark(marks, from, left);
    append(records, lines, number, wire);
    mark(marks, wire, true);
}

/// Adds a record, for which there is room, and puts it last on a line.
fn add(records: &mut Vec<Record>, lines: &mut [Line], marks: &mut [u64], wire: u32)
    requires room { vec_len records.old < vec_capacity records.old }
    requires wire { wire < length lines.old }
    requires few { length records.old.items < MOST_TOKENS }
    requires lined { (order : ℕ → List ℕ) × IsLined records.old.items lines.old marks.old order }
    ensures lined { (order : ℕ → List ℕ) → IsLined records.old.items lines.old marks.old order
        → IsLined records.new.items lines.new marks.new
        (put_last order (length records.old.items) wire) }
    ensures kept { IsAdded records.old.items lines.old records.new.items lines.new wire }
    ensures capacity { vec_capacity records.new ≡ vec_capacity records.old }
    ensures words { length marks.new ≡ length marks.old }
{
    let number = records.len() as u32;
    records.push_reserved(Record {
        prev: 0,
        next: 0,
        wire,
        client: 0,
    });
    append(records, lines, number, wire);
    mark(marks, wire, true);
}

/// Adds records, for which there is room, each last on a line.
fn add_all(
    records: &mut Vec<Record>,
    lines: &mut [Line],
    marks: &mut [u64],
    wire: u32,
    from: u32,
    to: u32,
)
    requires order { from ≤ to }
    requires room { vec_len records.old + (to - from) ≤ vec_capacity records.old }
    requires wire { wire < length lines.old }
    requires few { length records.old.items + (to - from) ≤ MOST_TOKENS }
    requires lined { (order : ℕ → List ℕ) × IsLined records.old.items lines.old marks.old order }
    ensures lined { Fills records.old.items lines.old marks.old
        records.new.items lines.new marks.new wire }
    ensures kept { IsMore records.old.items lines.old records.new.items lines.new wire }
    ensures count { count_of lines.new wire ≡ count_of lines.old wire + (to - from) }
    ensures words { length marks.new ≡ length marks.old }
{
    for _ in from..to {
        add(records, lines, marks, wire);
    }
}

/// Adds records to a line until `wanted` stand there. No more stand there before.
///
/// # Errors
/// `AllocError` if they get no memory. Then nothing has changed.
pub(crate) fn fill(
    records: &mut Vec<Record>,
    lines: &mut [Line],
    marks: &mut [u64],
    wire: u32,
    wanted: u32,
) -> Result<(), AllocError>
    requires wire { wire < length lines.old }
    requires less { count_of lines.old wire ≤ wanted }
    requires few { length records.old.items + (wanted - count_of lines.old wire) ≤ MOST_TOKENS }
    requires lined { (order : ℕ → List ℕ) × IsLined records.old.items lines.old marks.old order }
    ensures lined { Fills records.old.items lines.old marks.old
        records.new.items lines.new marks.new wire }
    ensures kept { IsMore records.old.items lines.old records.new.items lines.new wire }
    ensures words { length marks.new ≡ length marks.old }
    ensures ok { OnOk result (count_of lines.new wire ≡ wanted) }
    ensures err { OnErr result ((records.new.items ≡ records.old.items) × (lines.new ≡ lines.old)) }
{
    let count = lines[wire as usize].count;
    records.reserve((wanted - count) as usize)?;
    add_all(records, lines, marks, wire, count, wanted);
    Ok(())
}
