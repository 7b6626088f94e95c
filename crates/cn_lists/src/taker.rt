//! A taker: a worker's own part of a floor, which keeps no list of the names that it takes.

ghost use Rattle.std.specs.Prelude.{◌≡◌, ◌*◌, ◌≤◌, IfErr, IfOk};
ghost use Rattle.cn_spec.specs.declared.limits.TheConstants.{MOST_TAKEN};
ghost use Rattle.cn_floor.specs.Carried.{client_count, start_after};
ghost use Rattle.cn_floor.specs.Words.{word_count};
ghost use Rattle.cn_lists.specs.Taking.{empty_taker};

use cn_floor::{Floor, Post, Words};
use std::alloc::Global;
use std::marker::Model;

/// A worker's own part of a floor of which it only takes names: its quota. It keeps no list of them, no count, no
/// client, and nobody inside: it takes no memory, however many names are taken.
#[derive(Drop)]
pub struct Taker {
    pub(crate) post: Post,
}

impl Model for Taker {
    ghost use Rattle.cn_lists.specs.InsideTaker.{IsTaker, taker_of};
    ghost use Rattle.cn_lists.specs.Taking.{TakerValue};

    ghost Value = { TakerValue };

    ghost view = { taker_of };

    ghost invariant = { IsTaker };
}

impl Taker {
    /// How many names it may still take.
    pub fn quota(&self) -> u64
        ensures { result ≡ self.now.view.quota }
    {
        self.post.quota()
    }
}

/// A floor that goes on from these words as one of [`Floor::open_words`] does, and a taker that has the whole
/// quota. They count at most [`cn_spec::limits::MOST_TAKEN`] clients, and the quota is at most as many.
///
/// # Errors
/// The words, if a growth was refused.
pub fn open_for_takers<'a>(
    alloc: Global,
    words: Words<'a>,
    quota: u64,
) -> Result<(Floor<'a>, Taker), Words<'a>>
    requires few { (client_count words ≤ MOST_TAKEN) × (quota ≤ MOST_TAKEN) }
    ensures floor { IfOk result (λ r. r.0.start ≡ start_after words.entry quota) }
    ensures taker { IfOk result (λ r. r.1 ≡ empty_taker r.0 quota) }
    ensures spaced { IfOk result (λ r. r.0.table.words
        ≡ words.entry.stride * word_count words.entry.network.table) }
    ensures back { IfErr result (λ back. back ≡ words.entry) }
{
    match Floor::lay(alloc, words, quota) {
        Ok((floor, post)) => Ok((floor, Taker { post })),
        Err(words) => Err(words),
    }
}
