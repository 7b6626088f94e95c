//! Words laid a stride apart.

ghost use Rattle.std.specs.Prelude.{◌≡◌, ◌*◌, ◌≤◌, [], length, replicate, IfOk};
ghost use Rattle.atomic_table.specs.Table.{opening};
ghost use Rattle.cn_floor.specs.Rule.{HoldsAt, start_of};
ghost use Rattle.cn_floor.specs.Spread.{spread};
ghost use Rattle.cn_floor.specs.Views.{empty_view};

use super::super::plays::FloorRule;
use crate::view::{Opening, View};
use atomic_table::{Seat, Table};
use std::alloc::{AllocError, Global};

/// A table of words with which a floor may begin, a stride apart, and the seat of the one lane.
///
/// # Errors
/// `AllocError` if the table gets no memory.
pub(super) fn table_of(
    alloc: Global,
    words: &[u64],
    about: &Opening,
) -> Result<(Table<(), View, Opening, FloorRule, Global>, Seat<(), View>), AllocError>
    requires stride { 1 ≤ about.now.stride }
    requires began { HoldsAt (start_of about.now)
        (opening words.now [] (empty_view (start_of about.now) about.now.quota)) }
    ensures words { IfOk result (λ t. t.0.shared.table_id.words
        ≡ about.now.stride * length words.now) }
    ensures table { IfOk result (λ t. (t.0.shared.table_id.slots ≡ 0)
        × (t.0.shared.key ≡ about.now)) }
    ensures seat { IfOk result (λ t. (t.1.table_id ≡ t.0.shared.table_id)
        × (t.1.me ≡ (empty_view (start_of about.now) about.now.quota, []))) }
{
    if about.stride == 1 {
        return Table::of_words(alloc, words, about);
    }
    let spaced = spread_out(alloc, words, about.stride)?;
    Table::of_words(alloc, spaced.as_slice(), about)
}

/// The words a stride apart, with zeros between.
///
/// # Errors
/// `AllocError` if they get no memory.
fn spread_out(alloc: Global, words: &[u64], stride: usize) -> Result<Vec<u64>, AllocError>
    requires { 1 ≤ stride }
    ensures { IfOk result (λ spaced. spaced.items ≡ spread stride words.now) }
{
    let Some(places) = stride.checked_mul(words.len()) else {
        return Err(AllocError);
    };
    let mut spaced = Vec::from_elem(alloc, 0u64, places)?;
    lay(words, stride, &mut spaced);
    Ok(spaced)
}

/// Writes each word to its place.
fn lay(words: &[u64], stride: usize, spaced: &mut [u64])
    requires stride { 1 ≤ stride }
    requires zeros { spaced.old ≡ replicate (stride * length words.now) 0 }
    ensures { spaced.new ≡ spread stride words.now }
{
    for word in 0..words.len() {
        spaced[stride * word] = words[word];
    }
}
