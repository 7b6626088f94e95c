//! The shared words of a floor, and the atomic steps on them. No other module reaches the table: each step of a lane on
//! the word of an entry, a balancer or an exit is a call of a function of this folder, and the lane's view counts it.

mod loading;
mod spreading;

ghost use Rattle.std.specs.Mem.Slots.{slots_items, slots_len, IsFull};
ghost use Rattle.std.specs.Prelude.{◌≡◌, ◌+◌, ◌*◌, ◌^◌, ◌<◌, ◌≤◌, ℕ, [], length, IfOk};
ghost use Rattle.cn_tables.specs.Table.{Stands, end_of};
ghost use Rattle.cn_yard.specs.Lists.{IsThere, on, times_in};
ghost use Rattle.cn_floor.specs.Closing.{IsEnding};
ghost use Rattle.cn_floor.specs.EntersAll.{AllComeIn};
ghost use Rattle.cn_floor.specs.Plays.{ComesIn, GoesOn};
ghost use Rattle.cn_floor.specs.Rule.{IsStart};
ghost use Rattle.cn_floor.specs.Spread.{IsSpaced, IsStride, words_in};
ghost use Rattle.cn_floor.specs.Sweeps.{AllGoOn};
ghost use Rattle.cn_floor.specs.Views.{after_join, after_split, empty_view, on_in, split_off};
ghost use Rattle.cn_floor.specs.Words.{end_word, word_count};
ghost use Rattle.cn_floor.specs.declared.floor.counters.TheConstants.{MOST_STRIDE};

use super::plays::{
    EnterAllOf, EnterAllPlay, EnterOf, EnterPlay, FloorRule, JoinSeats, Portion, SplitSeat, StepOf,
    StepPlay, SweepOf, SweepPlay,
};
use super::post::Post;
use crate::view::{Opening, View};
use atomic_table::{Closed, Seat, Table};
use cn_tables::{Counting, End};
use cn_yard::Token;
use spreading::table_of;
use std::alloc::{AllocError, Global};
use std::marker::Model;
use std::snapshot::Snapshot;

/// How far apart two neighbours of the words lie in the table, at most.
pub(super) const MOST_STRIDE: usize = 16;

/// The place in the table of a word.
fn place_of(stride: usize, word: usize) -> usize
    requires stride { stride ≤ MOST_STRIDE }
    requires word { word < 2 ^ 40 }
    ensures { result ≡ stride * word }
{
    stride * word
}

/// One word for the lanes, and then one for each entry, each balancer and each exit.
#[derive(Drop)]
pub(super) struct Counters {
    entries: u32,
    balancers: u32,
    /// How far apart neighbours lie.
    stride: usize,
    table: Table<(), View, Opening, FloorRule, Global>,
}

impl Model for Counters {
    ghost use Rattle.cn_floor.specs.InsideCounters.{IsCounters, floor_of};
    ghost use Rattle.cn_floor.specs.Lane.{FloorValue};

    ghost Value = { FloorValue };

    ghost view = { floor_of };

    ghost invariant = { IsCounters };
}

impl Counters {
    /// The words as they are given, and the seat of the one lane, which has the whole quota.
    ///
    /// # Errors
    /// `AllocError` if the table gets no memory.
    pub(super) fn new(
        alloc: Global,
        network: &Counting,
        quota: u64,
        words: &Vec<u64>,
        stride: usize,
    ) -> Result<(Counters, Seat<(), View>), AllocError>
        requires began { IsStart
            (record { network = network.now; quota = quota; words = words.now.items; stride = stride }) }
        requires stride { IsStride stride }
        ensures start { IfOk result (λ r. r.0.start
            ≡ record { network = network.now; quota = quota; words = words.now.items; stride = stride }) }
        ensures seat { IfOk result (λ r. (r.1.table_id ≡ r.0.table)
            × (r.1.me ≡ (empty_view r.0.start quota, []))) }
        ensures spaced { IfOk result (λ r. r.0.table.words ≡ stride * word_count network.now.table) }
    {
        let about = Opening {
            network: Snapshot::of(network),
            quota,
            words: Snapshot::of(words),
            stride,
        };
        let (table, seat) = table_of(alloc, words.as_slice(), &about)?;
        let counters = Counters {
            entries: network.entries(),
            balancers: network.balancers(),
            stride,
            table,
        };
        Ok((counters, seat))
    }

    /// How far apart neighbours of the words lie.
    pub(super) fn stride(&self) -> usize
        ensures { result ≡ self.now.start.stride }
    {
        self.stride
    }

    /// The word of an end.
    fn word_of(&self, end: End) -> usize
        requires { Stands self.now.start.network.table end }
        ensures word { result ≡ end_word self.now.start.network.table end }
        ensures low { result < 2 ^ 40 }
    {
        let entries = self.entries as usize;
        match end {
            End::Balancer(balancer) => 1 + entries + balancer as usize,
            End::Exit(exit) => 1 + entries + self.balancers as usize + exit as usize,
        }
    }

    /// The client comes in by the entry, in one atomic step: an add on the entry's word. The token and the client are
    /// only for the proof.
    pub(super) fn enter<T: EnterOf>(&self, post: &mut Post, _token: Token, _client: u64, entry: u32)
        requires own { post.old.home ≡ self.now }
        requires coming { T.coming
            ≡ record { start = self.now.start; token = _token; client = _client; entry = entry } }
        requires entry { entry < self.now.start.network.table.entries }
        requires quota { 0 < post.old.view.quota }
        ensures home { post.new.home ≡ post.old.home }
        ensures came { ComesIn T.coming post.old.view post.new.view }
    {
        let place = place_of(self.stride, 1 + entry as usize);
        post.quota -= 1;
        self.table
            .shared
            .fetch_add::<EnterPlay<T>>(&mut post.seat, place, 1);
    }

    /// The clients of a list come in by the entry, in one atomic step: an add of their number on the entry's word. Each
    /// one's token has the number of its place in the list, which is only for the proof.
    pub(super) fn enter_all<T: EnterAllOf>(
        &self,
        post: &mut Post,
        _clients: &[u64],
        entry: u32,
        count: u64,
    )
        requires own { post.old.home ≡ self.now }
        requires entering { T.entering
            ≡ record { start = self.now.start; clients = _clients.now; entry = entry } }
        requires count { length _clients.now ≡ count }
        requires entry { entry < self.now.start.network.table.entries }
        requires quota { count ≤ post.old.view.quota }
        ensures home { post.new.home ≡ post.old.home }
        ensures came { AllComeIn T.entering post.old.view post.new.view }
    {
        post.quota -= count;
        self.table.shared.fetch_add::<EnterAllPlay<T>>(
            &mut post.seat,
            place_of(self.stride, 1 + entry as usize),
            count,
        );
    }

    /// The token goes by the end of its wire, in one atomic step: an add on the end's word, which gives its number. How
    /// far apart neighbours lie is said by the caller, who may know a constant. The token, the client and the wire are
    /// only for the proof.
    pub(super) fn step<T: StepOf>(
        &self,
        post: &mut Post,
        _token: Token,
        _client: u64,
        _wire: u32,
        end: End,
        stride: usize,
    ) -> u64
        requires own { post.old.home ≡ self.now }
        requires going { T.going
            ≡ record { start = self.now.start; token = _token; client = _client; wire = _wire; end = end } }
        requires there { IsThere post.old.view.tokens _token _client _wire }
        requires ends { end_of self.now.start.network.table _wire ≡ end }
        requires stands { Stands self.now.start.network.table end }
        requires stride { stride ≡ self.now.start.stride }
        ensures home { post.new.home ≡ post.old.home }
        ensures went { GoesOn T.going post.old.view result post.new.view }
    {
        // Opens what the words keep: how far apart they lie at most.
        let _ = &self.table;
        let place = place_of(stride, self.word_of(end));
        self.table
            .shared
            .fetch_add::<StepPlay<T>>(&mut post.seat, place, 1)
    }

    /// The tokens of a wire go by its end, in one atomic step: an add of their number on the end's word, which gives
    /// the number of the first. The wire is only for the proof.
    pub(super) fn sweep<T: SweepOf>(
        &self,
        post: &mut Post,
        _wire: u32,
        end: End,
        tokens: u64,
    ) -> u64
        requires own { post.old.home ≡ self.now }
        requires sweeping { T.sweeping
            ≡ record { start = self.now.start; wire = _wire; end = end } }
        requires once { (token : ℕ) → times_in post.old.view.tokens token ≤ 1 }
        requires tokens { length (on post.old.view.tokens _wire) ≡ tokens }
        requires wire { _wire < length self.now.start.network.table.ends }
        requires ends { end_of self.now.start.network.table _wire ≡ end }
        requires stands { Stands self.now.start.network.table end }
        ensures home { post.new.home ≡ post.old.home }
        ensures went { AllGoOn T.sweeping post.old.view result post.new.view }
    {
        let place = place_of(self.stride, self.word_of(end));
        self.table
            .shared
            .fetch_add::<SweepPlay<T>>(&mut post.seat, place, tokens)
    }

    /// The seat's view is cut in two. The quota is only for the proof.
    pub(super) fn split<T: Portion>(&self, seat: &mut Seat<(), View>, _quota: u64) -> Seat<(), View>
        requires own { (seat.old.table_id ≡ self.now.table)
            × (seat.old.me.0.start ≡ self.now.start) }
        requires slots { (seat.old.me.1 ≡ []) × (seat.old.me.0.loads ≡ []) }
        requires quota { (T.quota ≡ _quota) × (_quota ≤ seat.old.me.0.quota) }
        ensures left { (seat.new.table_id ≡ seat.old.table_id)
            × (seat.new.me ≡ (after_split _quota seat.old.me.0, [])) }
        ensures right { (result.table_id ≡ seat.old.table_id)
            × (result.me ≡ (split_off _quota seat.old.me.0, [])) }
    {
        self.table.shared.split_seat::<SplitSeat<T>>(seat)
    }

    /// The second seat's view is taken into the first's.
    pub(super) fn join(&self, seat: &mut Seat<(), View>, other: Seat<(), View>)
        requires own { (seat.old.table_id ≡ self.now.table) × (other.table_id ≡ self.now.table) }
        requires slots { (seat.old.me.1 ≡ []) × (seat.old.me.0.loads ≡ []) × (other.me.1 ≡ [])
            × (other.me.0.loads ≡ []) }
        requires out { (wire : ℕ) → on_in wire other.me.0 ≡ 0 }
        ensures { (seat.new.table_id ≡ seat.old.table_id)
            × (seat.new.me ≡ (after_join seat.old.me.0 other.me.0, [])) }
    {
        self.table.shared.join_seat::<JoinSeats>(seat, other);
    }

    /// The table at the end, and how far apart its words lie: they are as the view of the last post records them.
    pub(super) fn close(self, post: Post) -> (Closed<(), Global>, usize)
        requires own { post.home ≡ self }
        ensures ending { IsEnding self.start post.view (words_in result.1 (slots_items result.0.words)) }
        ensures spaced { IsSpaced result.1 (slots_items result.0.words) }
        ensures whole { IsFull result.0.words × (slots_len result.0.slots ≡ 0) }
    {
        let stride = self.stride;
        (self.table.close_with(post.seat), stride)
    }
}
