//! What is done by a post, for lanes, and for lists and takers: they are in `cn_lists`, and no other crate calls this.

ghost use Rattle.std.specs.Prelude.{◌≡◌, ◌<◌, ◌≤◌, ◌↔◌, [], ℕ, length, IfOk, IsErrOf, OnErr, OnOk};
ghost use Rattle.cn_yard.specs.Lists.{on, times_in};
ghost use Rattle.cn_floor.specs.EntersAll.{ComeTogether};
ghost use Rattle.cn_floor.specs.Plays.{Looks};
ghost use Rattle.cn_floor.specs.Steps.{IsAnswer, StoodInState};
ghost use Rattle.cn_floor.specs.Sweeps.{GoTogether};
ghost use Rattle.cn_floor.specs.Together.{HaveDistinctNames, StoodAsOne, first_after, second_after};
ghost use Rattle.cn_floor.specs.Views.{after_entered, after_join, after_look, after_split, base, on_in, split_off};

use super::Floor;
use super::post::Post;
use crate::fault::SplitFault;
use cn_tables::{Counting, End};
use std::marker::Brand;

impl<'a> Floor<'a> {
    /// How many clients came before it began.
    pub fn base(&self) -> u64
        ensures { result ≡ base self.now.start }
    {
        self.base
    }

    /// Lets the clients of a list in by one entry, in one atomic step.
    pub fn enter_list(&self, post: &mut Post, clients: &[u64], entry: u32)
        requires own { post.old.home ≡ self.now }
        requires entry { entry < self.now.start.network.table.entries }
        requires quota { length clients.now ≤ post.old.view.quota }
        ensures home { post.new.home ≡ post.old.home }
        ensures step { ComeTogether self.now.start clients.now entry post.old.view post.new.view }
    {
        self.counters
            .enter_all::<Brand>(post, clients, entry, clients.len() as u64);
    }

    /// Lets all tokens of a wire, as many as `tokens`, go by its end in one atomic step: the end, and the number of the
    /// first.
    pub fn let_by(&self, network: &Counting, post: &mut Post, wire: u32, tokens: u64) -> (End, u64)
        requires network { network.now ≡ self.now.start.network }
        requires own { post.old.home ≡ self.now }
        requires wire { wire < length self.now.start.network.table.ends }
        requires once { (token : ℕ) → times_in post.old.view.tokens token ≤ 1 }
        requires above { (u : ℕ) → wire < u → on post.old.view.tokens u ≡ [] }
        requires tokens { (0 < tokens) × (length (on post.old.view.tokens wire) ≡ tokens) }
        ensures home { post.new.home ≡ post.old.home }
        ensures together { GoTogether self.now.start wire result.0 result.1 post.old.view post.new.view }
    {
        self.start_laws();
        post.post_laws();
        let end = network.end(wire);
        let number = self.counters.sweep::<Brand>(post, wire, end, tokens);
        (end, number)
    }

    /// How many clients came in since the floor began, as far as a view can see: it loads the word of each entry once.
    pub fn entered_by(&self, post: &mut Post) -> u64
        requires own { post.old.home ≡ self.now }
        ensures post { post.new
            ≡ record post.old { view = after_entered self.now.start result post.old.view } }
        ensures answer { IsAnswer self.now.start post.old.view result }
        ensures in_state { StoodInState self.now.start post.new.view }
    {
        self.counters.load_all(&mut post.seat, self.base)
    }

    /// Splits off a post with some of the quota; the first keeps all else. Each of both then looks once. It takes no
    /// memory.
    ///
    /// # Errors
    /// `QuotaTooSmall`. Then nothing has changed.
    pub fn split_post(&self, post: &mut Post, quota: u64) -> Result<Post, SplitFault>
        requires own { post.old.home ≡ self.now }
        ensures first { OnOk result (post.new
            ≡ record post.old { view = after_look (after_split quota post.old.view) }) }
        ensures second { IfOk result (λ other. other
            ≡ record post.old { view = after_look (split_off quota post.old.view) }) }
        ensures in_states { IfOk result (λ other. StoodInState self.now.start post.new.view
            × StoodInState self.now.start other.view) }
        ensures enough { OnOk result (quota ≤ post.old.view.quota) }
        ensures err { OnErr result (post.new ≡ post.old) }
        ensures small { IsErrOf result SplitFault.QuotaTooSmall ↔ (post.old.view.quota < quota) }
        ensures memory { ¬ (IsErrOf result SplitFault.Memory) }
    {
        if quota > post.quota {
            return Err(SplitFault::QuotaTooSmall);
        }
        let mut seat = self.counters.split::<Brand>(&mut post.seat, quota);
        self.counters.look::<Brand>(&mut post.seat);
        self.counters.look::<Brand>(&mut seat);
        post.quota -= quota;
        Ok(Post { seat, quota })
    }

    /// Takes the second post, which has nobody inside, into the first, which then looks once.
    pub(super) fn join_post(&self, post: &mut Post, other: Post)
        requires own { (post.old.home ≡ self.now) × (other.home ≡ self.now) }
        requires out { (wire : ℕ) → on_in wire other.view ≡ 0 }
        ensures post { post.new
            ≡ record post.old { view = after_look (after_join post.old.view other.view) } }
        ensures looks { Looks self.now.start (after_join post.old.view other.view) post.new.view }
    {
        self.counters.join(&mut post.seat, other.seat);
        self.counters.look::<Brand>(&mut post.seat);
        post.quota += other.quota;
    }

    /// Looks at two posts at one moment, and gives the second back, with how many clients came in.
    pub(super) fn look_at_both_posts(&self, post: &mut Post, other: Post) -> (Post, u64)
        requires own { (post.old.home ≡ self.now) × (other.home ≡ self.now) }
        ensures first { post.new
            ≡ record post.old { view = first_after self.now.start result.1 post.old.view } }
        ensures second { result.0 ≡ record other { view = second_after result.1 other.view } }
        ensures distinct { HaveDistinctNames post.old.view other.view }
        ensures answer { IsAnswer self.now.start post.old.view result.1
            × IsAnswer self.now.start other.view result.1 }
        ensures in_state { StoodAsOne self.now.start post.old.view other.view result.1 }
    {
        let Post { seat, quota } = other;
        let (seat, entered) = self
            .counters
            .look_at_both::<Brand>(&mut post.seat, seat, self.base);
        (Post { seat, quota }, entered)
    }
}
