//! One client is walked by one call, with its wire in a local.

ghost use Rattle.std.specs.Prelude.{◌≡◌, ℕ, ◌<◌, ◌≤◌, ◌⊎◌, ◌↔◌, [], List, length, replicate, IfOk, IsErrOf, OnErr};
ghost use Rattle.cn_tables.specs.declared.end.End.TheVariants.{Balancer, Exit};
ghost use Rattle.cn_tables.specs.Table.{end_of};
ghost use Rattle.cn_yard.specs.Lists.{on, tokens_in};
ghost use Rattle.cn_floor.specs.Alone.{IsAlone, OnlyPassed, PassesOn};
ghost use Rattle.cn_floor.specs.Named.{IsGranted, IsNamed, WalksThrough};

use super::Floor;
use super::lane::Lane;
use super::post::Post;
use super::walking::Walk;
use crate::fault::LaneFault;
use crate::gate::{Asked, Gate, Moment, NoPause, Pause};
use crate::view::Grant;
use cn_balancer::output_of;
use cn_exit::name_of;
use cn_ledger::Client;
use cn_tables::{Counting, End};
use cn_yard::Token;
use std::marker::Brand;
use std::sync::Wait;

/// One client, with a pause before each step.
#[derive(Drop)]
struct One<'p, P: Pause> {
    client: u64,
    pause: &'p P,
}

/// It answers its grant.
impl<'p, P: Pause> Walk<Grant> for One<'p, P> {
    ghost many = { λ _. 1 };

    ghost Walked = { λ start one _ entry grant v w. IsGranted start one.client entry grant v w };

    #[inline(always)]
    fn count(&self) -> u64 {
        1
    }

    #[inline(always)]
    fn walk(
        &mut self,
        floor: &Floor<'_>,
        post: &mut Post,
        grants: &mut Vec<Grant>,
        entry: u32,
    ) -> Grant {
        let grant = floor.grant_one(floor.network(), post, self.client, entry, self.pause);
        grants.push_reserved(grant);
        grant
    }
}

impl<'a> Floor<'a> {
    /// Lets a client in by an entry and walks it out, in one atomic step for the entry, for each balancer on its way
    /// and for the exit: its name. Nobody of the lane is inside. The client's place is in a local, and not in the
    /// lane's yard. It waits for nobody, and takes memory only if the lane has no room, and then only for its grant.
    ///
    /// # Errors
    /// The first that stands: `NoSuchEntry`, `QuotaSpent`, `Memory` (the lane has no room, and gets no memory). Then
    /// nothing has changed.
    #[inline(always)]
    pub fn name(&self, lane: &mut Lane, client: u64, entry: u64) -> Result<u64, LaneFault>
        requires own { lane.old.home ≡ self.now }
        requires out { tokens_in lane.old.yard.lists ≡ 0 }
        ensures ok { IfOk result (λ name. IsNamed lane.old lane.new client entry name) }
        ensures err { OnErr result (lane.new ≡ lane.old) }
        ensures entry { IsErrOf result LaneFault.NoSuchEntry
            ↔ (self.now.start.network.table.entries ≤ entry) }
        ensures quota { IsErrOf result LaneFault.QuotaSpent
            ↔ ((entry < self.now.start.network.table.entries) × (lane.old.view.quota ≡ 0)) }
        ensures room { 0 < lane.old.room → ¬ (IsErrOf result LaneFault.Memory) }
    {
        let pause = &NoPause;
        let grant = self.let_walk(lane, &mut One { client, pause }, entry)?;
        Ok(grant.name)
    }

    /// Lets a client in by an entry and walks it out, by a view with nobody inside: its grant. It is made part of its
    /// callers, because an atomic add waits for each store before it, and a call makes some.
    #[inline(always)]
    pub fn grant_one<P: Pause>(
        &self,
        network: &Counting,
        post: &mut Post,
        client: u64,
        entry: u32,
        pause: &P,
    ) -> Grant
        requires network { network.now ≡ self.now.start.network }
        requires own { post.old.home ≡ self.now }
        requires out { (wire : ℕ) → on post.old.view.tokens wire ≡ [] }
        requires entry { entry < self.now.start.network.table.entries }
        requires quota { 0 < post.old.view.quota }
        ensures home { post.new.home ≡ post.old.home }
        ensures granted { IsGranted self.now.start client entry result post.old.view post.new.view }
        ensures gone { post.new.view.tokens ≡ replicate (length post.old.view.tokens) [] }
    {
        self.start_laws();
        post.post_laws();
        let (exit, visit) = self.walk_through(network, post, client, entry, pause);
        Grant {
            client,
            exit,
            visit,
            name: name_of(network.width(), exit, visit) - self.base,
        }
    }

    /// Lets a client in by an entry and walks it out, by a view with nobody inside: the exit by which it left, and its
    /// visit. Words that lie side by side have a walk of their own, in which no place is multiplied by a stride.
    #[inline(always)]
    fn walk_through<P: Pause>(
        &self,
        network: &Counting,
        post: &mut Post,
        client: u64,
        entry: u32,
        pause: &P,
    ) -> (u32, u64)
        requires network { network.now ≡ self.now.start.network }
        requires own { post.old.home ≡ self.now }
        requires out { (wire : ℕ) → on post.old.view.tokens wire ≡ [] }
        requires entry { entry < self.now.start.network.table.entries }
        requires quota { 0 < post.old.view.quota }
        ensures home { post.new.home ≡ post.old.home }
        ensures walked { WalksThrough self.now.start client entry result.0 result.1 post.old.view post.new.view }
        ensures gone { post.new.view.tokens ≡ replicate (length post.old.view.tokens) [] }
        ensures exit { result.0 < self.now.start.network.table.width }
    {
        let stride = self.counters.stride();
        if stride == 1 {
            self.walk_with_stride(network, post, client, entry, 1, pause)
        } else {
            self.walk_with_stride(network, post, client, entry, stride, pause)
        }
    }

    /// The same, by how far apart the words lie. It is made part of its caller, and so is what it calls: then each of
    /// its steps knows a stride that is written there as a constant.
    #[inline(always)]
    fn walk_with_stride<P: Pause>(
        &self,
        network: &Counting,
        post: &mut Post,
        client: u64,
        entry: u32,
        stride: usize,
        pause: &P,
    ) -> (u32, u64)
        requires network { network.now ≡ self.now.start.network }
        requires own { post.old.home ≡ self.now }
        requires out { (wire : ℕ) → on post.old.view.tokens wire ≡ [] }
        requires entry { entry < self.now.start.network.table.entries }
        requires quota { 0 < post.old.view.quota }
        requires stride { stride ≡ self.now.start.stride }
        ensures home { post.new.home ≡ post.old.home }
        ensures walked { WalksThrough self.now.start client entry result.0 result.1 post.old.view post.new.view }
        ensures gone { post.new.view.tokens ≡ replicate (length post.old.view.tokens) [] }
        ensures exit { result.0 < self.now.start.network.table.width }
    {
        self.start_laws();
        post.post_laws();
        let token = Token::first();
        pause.before(Moment::Enter);
        self.counters.enter::<Brand>(post, token, client, entry);
        let (wire, exit) = self.pass_on(network, post, token, client, entry, stride, pause);
        pause.before(Moment::Leave);
        let end = End::Exit(exit);
        let visit = self
            .counters
            .step::<Brand>(post, token, client, wire, end, stride);
        (exit, visit)
    }

    /// Lets a token that stands on an entry, the only one of a view, pass one balancer after the other, until its wire
    /// ends at an exit. Returns this wire and the exit. It passes as many balancers as the network is deep, so it does
    /// not test whether a wire ends at one.
    #[inline(always)]
    fn pass_on<P: Pause>(
        &self,
        network: &Counting,
        post: &mut Post,
        token: Token,
        client: u64,
        entry: u32,
        stride: usize,
        pause: &P,
    ) -> (u32, u32)
        requires network { network.now ≡ self.now.start.network }
        requires own { post.old.home ≡ self.now }
        requires entry { entry < self.now.start.network.table.entries }
        requires alone { IsAlone post.old.view.tokens token client entry }
        requires stride { stride ≡ self.now.start.stride }
        ensures home { post.new.home ≡ post.old.home }
        ensures passed { OnlyPassed post.old.view post.new.view }
        ensures alone { IsAlone post.new.view.tokens token client result.0 }
        ensures by { (numbers : List ℕ)
            × PassesOn self.now.start token client numbers entry post.old.view result.0 post.new.view }
        ensures exit { end_of self.now.start.network.table result.0 ≡ Exit result.1 }
        ensures low { result.1 < self.now.start.network.table.width }
    {
        post.post_laws();
        let mut at = entry;
        let mut ends_at = number_of(network.end(at));
        for passed in 0..network.depth() {
            pause.before(Moment::Pass);
            let end = End::Balancer(ends_at);
            let number = self
                .counters
                .step::<Brand>(post, token, client, at, end, stride);
            at = network.entries() + 2 * ends_at + output_of(number);
            ends_at = number_of(network.end(at));
        }
        (at, ends_at)
    }
}

/// The number of the balancer or the exit that an end is. Who knows which of the two it is reads no more than this.
fn number_of(end: End) -> u32
    ensures { (end ≡ Balancer result) ⊎ (end ≡ Exit result) }
{
    match end {
        End::Balancer(number) | End::Exit(number) => number,
    }
}

/// Lets a client in by its entry and walks it out, as [`Floor::name`] does, in a lane that has quota and room: its
/// name. The gate is asked before each step, in the worker's name. It takes no memory, and refuses nothing, but returns
/// only if the gate lets it.
pub fn walk_one<'a, G: Gate, R: Wait>(
    rt: &R,
    floor: &Floor<'a>,
    lane: &mut Lane,
    client: Client,
    gate: &G,
    worker: u32,
) -> u64
    requires own { lane.old.home ≡ floor.now }
    requires out { tokens_in lane.old.yard.lists ≡ 0 }
    requires entry { client.entry < floor.now.start.network.table.entries }
    requires quota { 0 < lane.old.view.quota }
    requires room { 0 < lane.old.room }
    ensures { IsNamed lane.old lane.new client.id client.entry result }
{
    let asked = Asked { rt, gate, worker };
    let mut one = One {
        client: client.id,
        pause: &asked,
    };
    let Ok(grant) = floor.let_walk(lane, &mut one, client.entry) else {
        unreachable!()
    };
    grant.name
}
