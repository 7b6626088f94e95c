//! The running network of epochs, by one thread.

mod running;

ghost use Rattle.std.specs.Prelude.{◌≡◌, ℕ, ◌+◌, ◌<◌, ◌≤◌, ◌↔◌, List, [], Some, length, slice_index, IfOk, OnOk, IfSome, IsTrue};
ghost use Rattle.cn_spec.specs.declared.limits.TheConstants.{MOST_ARRIVALS, MOST_CARRIED, MOST_CLIENTS};
ghost use Rattle.cn_spec.specs.Step.{share};
ghost use Rattle.cn_spec.specs.Sums.{one_more};
ghost use Rattle.cn_tables.specs.Table.{sum_at};
ghost use Rattle.cn_tables.specs.declared.end.End.TheVariants.{Balancer};

use crate::clients::{Clients, Found};
use cn_balancer::output_of;
use cn_exit::{Exits, Leave};
use cn_ledger::{EnterFault, Moved, StepFault};
use cn_spec::limits::{MOST_ARRIVALS, MOST_CLIENTS};
use cn_tables::{Counting, End};
use std::alloc::{AllocError, Global};
use std::hash::RandomState;
use std::marker::Model;

/// The running network of one epoch: its counts, and its clients with their positions. One event is one atomic step of
/// the network. The next epoch begins with no counts ([`Core::clear`]), or goes on from these ([`Core::carry`]).
///
/// With any number of tokens inside, an enter or a step makes at most two hash look-ups and relinks one record.
#[derive(Drop)]
pub struct Core<'a> {
    alloc: Global,
    network: &'a Counting,
    base: u64,
    entry_counts: Vec<u64>,
    passes: Vec<u64>,
    exits: Exits,
    clients: Clients,
}

impl<'a> Model for Core<'a> {
    ghost use Rattle.cn_core.specs.State.{State};
    ghost use Rattle.cn_core.specs.InsideCore.{IsInside, state_of};

    ghost Value = { State };

    ghost view = { state_of };

    ghost invariant = { IsInside };
}

/// The count at a place.
fn count_at(counts: &[u64], at: usize) -> u64
    requires { at < length counts.now }
    ensures { result ≡ slice_index counts.now at }
{
    counts[at]
}

/// Counts one more at a place, and answers the count before.
fn count_one(counts: &mut Vec<u64>, at: usize) -> u64
    requires in_range { at < length counts.old.items }
    requires room { slice_index counts.old.items at < MOST_ARRIVALS }
    ensures before { result ≡ slice_index counts.old.items at }
    ensures after { counts.new.items ≡ one_more counts.old.items at }
{
    let before = counts[at];
    counts[at] = before + 1;
    before
}

impl<'a> Core<'a> {
    ghost use Rattle.cn_core.specs.declared.event.Event.{Event};
    ghost use Rattle.cn_core.specs.declared.event.Event.TheVariants.{Enter, Step};
    ghost use Rattle.cn_core.specs.State.{after_carry, came_in, inside_in, name_in, start};
    ghost use Rattle.cn_core.specs.History.{Agrees, ByHistories, enters_of, inside_of};
    ghost use Rattle.cn_core.specs.StateLedger.{HasSoundLedger};
    ghost use Rattle.cn_core.specs.Tight.{BringsAll, HasShares, IsBoundedState, IsTightState, ListsStateHolders};
    ghost use Rattle.cn_core.specs.Calls.{AnswersByHistory, CarriesByHistory, EntersTo, IsLedgerEvent, StepsTo};
    ghost use Rattle.cn_ledger.specs.Answers.{entered_reply, stepped_reply};

    /// A network that nobody has entered. The table of its clients hashes by `state`.
    ///
    /// # Errors
    /// `AllocError` if the counts get no memory.
    pub fn new(alloc: Global, network: &'a Counting, state: RandomState) -> Result<Self, AllocError>
        ensures start { IfOk result (λ core. core ≡ start network.now) }
        ensures history { IfOk result (λ core. Agrees core [] []) }
    {
        Ok(Core {
            alloc,
            network,
            base: 0,
            entry_counts: vec![in alloc; 0; network.entries() as usize]?,
            passes: vec![in alloc; 0; network.balancers() as usize]?,
            exits: Exits::new(alloc, network.width())?,
            clients: Clients::new(alloc, network.entries() + 2 * network.balancers(), state)?,
        })
    }

    /// How many clients entered in this epoch: at most [`MOST_CLIENTS`] ([`Core::state_laws`]).
    pub fn entered(&self) -> u64
        ensures value { result ≡ length self.now.clients }
        ensures by_history { ByHistories self.now (λ history carried. result ≡ enters_of history) }
    {
        self.clients.len() as u64
    }

    /// How many clients entered in the earlier epochs whose counts are carried ([`Core::carry`]): at most
    /// [`MOST_CARRIED`]. Each name that the epoch gives is that of its exit and visit minus this number.
    pub fn base(&self) -> u64
        ensures value { result ≡ self.now.base }
        ensures by_history { ByHistories self.now (λ history carried. result ≡ carried.enters) }
        ensures few { result ≤ MOST_CARRIED }
    {
        self.base
    }

    /// What holds in every state, a law: clients, carried ones too, are few, and all came in by entries; each exit has
    /// a count; some history leads to it, and by each that does its ledger is sound, and what is carried by each exit
    /// is its share of the carried clients; no count is more than what came in, and no exit has let out more than its
    /// share of that, nor less than its share of the carried clients; names differ, and are below their number.
    #[tactic(auto, using(crate::proofs::EarlierLemmas::state_laws))]
    pub fn state_laws(&self)
        ensures few { length self.now.clients ≤ MOST_CLIENTS }
        ensures carried { self.now.base ≤ MOST_CARRIED }
        ensures came { came_in self.now ≡ self.now.base + length self.now.clients }
        ensures limit { came_in self.now ≤ MOST_CARRIED + MOST_CLIENTS }
        ensures exits { length self.now.visits ≡ self.now.network.table.width }
        ensures reached { (history : List Event) × (earlier : List (List Event))
            × Agrees self.now history earlier }
        ensures shares { ByHistories self.now (λ history carried.
            HasShares self.now.network.table.width carried) }
        ensures sound { ByHistories self.now (HasSoundLedger self.now) }
        ensures bounded { IsBoundedState self.now }
    {
        // Opens what each core keeps.
        let _ = &self.entry_counts;
    }

    /// How many clients are inside: they entered and hold no name.
    #[tactic(auto, using(crate::proofs::HistoryLemmas::inside_laws))]
    pub fn inside(&self) -> u64
        ensures value { result ≡ inside_in self.now }
        ensures by_history { ByHistories self.now (λ history carried.
            result ≡ inside_of self.now.network.table history carried) }
    {
        u64::from(self.clients.inside())
    }

    /// Whether nobody is inside. Then each exit has let out its share of all that came in, the carried ones too, and
    /// those that entered hold the names below their number, each once.
    pub fn is_quiet(&self) -> bool
        ensures value { IsTrue result ↔ (inside_in self.now ≡ 0) }
        ensures tight { IsTrue result → IsTightState self.now }
    {
        self.clients.inside() == 0
    }

    /// How many tokens passed a balancer below [`Counting::balancers`] since the counts were zero: at most what the
    /// full flow of all that came in brings there.
    pub fn balancer_count(&self, balancer: u32) -> u64
        requires { balancer < self.now.network.table.balancers }
        ensures value { result ≡ slice_index self.now.passes balancer }
        ensures few { result ≤ came_in self.now }
        ensures flow { (f : ℕ → ℕ) → BringsAll self.now f
            → result ≤ sum_at self.now.network.table (Balancer balancer) f }
    {
        count_at(&self.passes, balancer as usize)
    }

    /// How many tokens left by an exit below [`Counting::width`] since the counts were zero: at most its share.
    pub fn exit_count(&self, exit: u32) -> u64
        requires { exit < self.now.network.table.width }
        ensures value { result ≡ slice_index self.now.visits exit }
        ensures few { result ≤ share (came_in self.now) self.now.network.table.width exit }
        ensures at_most { result ≤ came_in self.now }
    {
        self.exits.count(exit)
    }

    /// The name of a client, if it holds one: below the number of clients that entered, and of no other client.
    pub fn name(&self, client: u64) -> Option<u64>
        ensures value { result ≡ name_in self.now client }
        ensures below { IfSome result (λ name. name < length self.now.clients) }
        ensures own { IfSome result (λ name. (other : ℕ)
            → name_in self.now other ≡ Some name → other ≡ client) }
    {
        match self.clients.find(client)? {
            Found::Named(name) => Some(name),
            Found::Walking { .. } => None,
        }
    }

    /// If nobody is inside ([`Core::is_quiet`]), the clients that entered, by rising name: `holders[n]` is the client
    /// with name n.
    ///
    /// # Errors
    /// `AllocError` if the list gets no memory.
    pub fn holders(&self) -> Result<Vec<u64>, AllocError>
        requires { inside_in self.now ≡ 0 }
        ensures { IfOk result (λ holders. ListsStateHolders self.now holders.items) }
    {
        self.clients.by_name()
    }

    /// If nobody is inside ([`Core::is_quiet`]), forgets all clients and counts: the core is as a new one. It takes no
    /// memory.
    pub fn clear(&mut self)
        requires { inside_in self.old ≡ 0 }
        ensures start { self.new ≡ start self.old.network }
        ensures history { Agrees self.new [] [] }
    {
        self.base = 0;
        self.entry_counts.fill(0);
        self.passes.fill(0);
        self.exits.clear();
        self.clients.clear();
    }

    /// If nobody is inside ([`Core::is_quiet`]), forgets all clients and keeps the counts: the next epoch goes on from
    /// them, and each exit's first visit in it is its share of the clients that are carried ([`Core::base`]). It takes
    /// no memory.
    ///
    /// The carried clients and those that entered are together at most [`MOST_CARRIED`].
    pub fn carry(&mut self)
        requires quiet { inside_in self.old ≡ 0 }
        requires room { self.old.base + length self.old.clients ≤ MOST_CARRIED }
        ensures event { self.new ≡ after_carry self.old }
        ensures visits { (exit : ℕ) → exit < self.old.network.table.width
            → slice_index self.new.visits exit ≡ share self.new.base self.old.network.table.width exit }
        ensures history { CarriesByHistory self.old self.new }
    {
        self.base += self.entered();
        self.clients.clear();
    }

    /// A client comes in by an entry: its token stands last on the entry's wire. An accepted enter is one event on the
    /// ledger; a refused one changes nothing.
    ///
    /// # Errors
    /// The first that stands: `NoSuchEntry`, `AlreadyIn` (it is inside, or holds a name), `EpochFull`, `Memory`.
    pub fn enter(&mut self, client: u64, entry: u64) -> Result<(), EnterFault>
        ensures event { EntersTo self.old client entry (entered_reply result) self.new }
        ensures history { AnswersByHistory self.old (Enter client entry)
            (entered_reply result) self.new }
        ensures ledger { IsLedgerEvent self.old (Enter client entry) (entered_reply result) self.new }
        ensures network { self.new.network ≡ self.old.network }
    {
        if entry >= u64::from(self.network.entries()) {
            return Err(EnterFault::NoSuchEntry);
        }
        if self.clients.find(client).is_some() {
            return Err(EnterFault::AlreadyIn);
        }
        if self.clients.len() as u64 >= MOST_CLIENTS {
            return Err(EnterFault::EpochFull);
        }
        if self.clients.add(client, entry as u32).is_err() {
            return Err(EnterFault::Memory);
        }
        count_one(&mut self.entry_counts, entry as usize);
        Ok(())
    }

    /// A client takes its next step: past the balancer at the end of its wire, or out by the exit there with a name. An
    /// accepted step is one event on the ledger; a refused one changes nothing.
    ///
    /// # Errors
    /// `Stranger` if the client did not enter, `HasName` with the name that it holds.
    pub fn step(&mut self, client: u64) -> Result<Moved, StepFault>
        ensures event { StepsTo self.old client (stepped_reply result) self.new }
        ensures history { AnswersByHistory self.old (Step client) (stepped_reply result) self.new }
        ensures ledger { IsLedgerEvent self.old (Step client) (stepped_reply result) self.new }
        ensures network { self.new.network ≡ self.old.network }
    {
        let Some(found) = self.clients.find(client) else {
            return Err(StepFault::Stranger);
        };
        let (token, wire) = match found {
            Found::Named(name) => return Err(StepFault::HasName(name)),
            Found::Walking { token, wire } => (token, wire),
        };
        match self.network.end(wire) {
            End::Balancer(balancer) => {
                let number = count_one(&mut self.passes, balancer as usize);
                let wire = self.network.entries() + 2 * balancer + output_of(number);
                self.clients.walk(token, wire);
                Ok(Moved::On {
                    balancer,
                    number,
                    wire,
                })
            }
            End::Exit(exit) => {
                let Leave { visit, name } = self.exits.take(exit);
                // The names below the base are those of earlier epochs.
                let name = name - self.base;
                self.clients.settle(client, token, name);
                Ok(Moved::Out { exit, visit, name })
            }
        }
    }
}
