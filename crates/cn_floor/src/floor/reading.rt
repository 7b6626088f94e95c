//! What is read off the words of a closed floor.

ghost use Rattle.std.specs.Mem.Slots.{slots_items, IsFull};
ghost use Rattle.std.specs.Prelude.{◌≡◌, ◌<◌, ◌^◌, length, slice_index};
ghost use Rattle.cn_floor.specs.Spread.{IsSpaced, words_in};
ghost use Rattle.cn_floor.specs.Words.{IsDifference, clients_in, word_count};

use atomic_table::Closed;
use cn_tables::Counting;
use std::alloc::Global;

/// A word of a closed table in which they lie a stride apart.
fn word_in(table: &Closed<(), Global>, stride: usize, word: usize) -> u64
    requires spaced { IsSpaced stride (slots_items table.now.words) }
    requires full { IsFull table.now.words }
    requires there { word < length (words_in stride (slots_items table.now.words)) }
    ensures { result ≡ slice_index (words_in stride (slots_items table.now.words)) word }
{
    table.word(stride * word)
}

/// Copies the words of a closed table in which they lie side by side.
#[inline]
fn copy_adjacent(table: &Closed<(), Global>, words: &mut [u64])
    requires full { IsFull table.now.words }
    requires places { length words.old ≡ length (slots_items table.now.words) }
    ensures { words.new ≡ slots_items table.now.words }
{
    for word in 0..words.len() {
        words[word] = table.word(word);
    }
}

/// Copies the words of a closed table over a list of as many.
// Inlined to where the table is a local, so that its words are copied several at once.
#[inline]
pub(super) fn copy_words(table: &Closed<(), Global>, stride: usize, list: &mut Vec<u64>)
    requires spaced { IsSpaced stride (slots_items table.now.words) }
    requires full { IsFull table.now.words }
    requires places { length list.old.items ≡ length (words_in stride (slots_items table.now.words)) }
    ensures { list.new.items ≡ words_in stride (slots_items table.now.words) }
{
    if stride == 1 {
        copy_adjacent(table, list);
    } else {
        copy_apart(table, stride, list);
    }
}

/// Copies the words of a closed table in which they lie apart.
#[inline]
fn copy_apart(table: &Closed<(), Global>, stride: usize, words: &mut [u64])
    requires spaced { IsSpaced stride (slots_items table.now.words) }
    requires full { IsFull table.now.words }
    requires places { length words.old ≡ length (words_in stride (slots_items table.now.words)) }
    ensures { words.new ≡ words_in stride (slots_items table.now.words) }
{
    for word in 0..words.len() {
        words[word] = word_in(table, stride, word);
    }
}

/// How many clients came, by the words of a closed table.
pub(super) fn clients_of(network: &Counting, table: &Closed<(), Global>, stride: usize) -> u64
    requires spaced { IsSpaced stride (slots_items table.now.words) }
    requires full { IsFull table.now.words }
    requires words { length (words_in stride (slots_items table.now.words)) ≡ word_count network.now.table }
    requires few { clients_in network.now.table (words_in stride (slots_items table.now.words)) < 2 ^ 64 }
    ensures { result ≡ clients_in network.now.table (words_in stride (slots_items table.now.words)) }
{
    let mut clients = 0;
    for entry in 0..network.entries() {
        clients += word_in(table, stride, 1 + entry as usize);
    }
    clients
}

/// How much each word has risen.
pub(super) fn rise(before: &mut Vec<u64>, words: &[u64])
    requires { length before.old.items ≡ length words.now }
    ensures { IsDifference before.old.items words.now before.new.items }
{
    for i in 0..words.len() {
        before[i] = words[i].saturating_sub(before[i]);
    }
}
