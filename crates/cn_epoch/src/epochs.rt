//! Epochs, one after another on one network.

mod running;

ghost use Rattle.std.specs.Prelude.{◌≡◌, ℕ, ◌+◌, ◌<◌, ◌≤◌, ◌^◌, true, false, List, [], None, Option, Some, length, slice_index, IfOk};
ghost use Rattle.cn_spec.specs.Step.{share};
ghost use Rattle.cn_spec.specs.declared.limits.TheConstants.{MOST_CARRIED, MOST_CLIENTS};
ghost use Rattle.cn_ledger.specs.Answers.{entered_reply, stepped_reply, turned_answer};
ghost use Rattle.cn_core.specs.Calls.{EntersTo, IsLedgerEvent, StepsTo};
ghost use Rattle.cn_core.specs.History as core;
ghost use Rattle.cn_core.specs.History.{enters_of, inside_of};
ghost use Rattle.cn_core.specs.State.{came_in, inside_in, start};
ghost use Rattle.cn_core.specs.StateLedger.{HasSoundLedger};
ghost use Rattle.cn_core.specs.Tight.{HasShares, IsBoundedState};
ghost use Rattle.cn_epoch.specs.Calls.{RepliesByHistory, TurnsByHistory, TurnsTo};
ghost use Rattle.cn_epoch.specs.History.{ByEpochHistories, EpochsAgree, next};

use cn_core::Core;
use cn_exit::expected;
use cn_ledger::{Answer, EnterFault, EpochRecord, Moved, StepFault, TurnFault};
use cn_tables::Counting;
use std::alloc::{AllocError, Global};
use std::hash::RandomState;
use std::marker::Model;

/// One network in epochs: each gives its clients the names from 0 up, and ends when nobody is inside. The counts are
/// cleared at the end of each ([`Epochs::new`]), or carried on ([`Epochs::carrying`]).
pub struct Epochs<'a> {
    alloc: Global,
    network: &'a Counting,
    number: u64,
    carries: bool,
    core: Core<'a>,
}

// By hand: a derived drop of a type with a lifetime is walked field by field wherever a value is dropped, and this one
// is a call there.
impl Drop for Epochs<'_> {
    fn drop(self) {
        let Epochs {
            alloc: _alloc,
            network: _network,
            number: _number,
            carries: _carries,
            core: _core,
        } = self;
    }
}

impl<'a> Model for Epochs<'a> {
    ghost use Rattle.cn_epoch.specs.History.{Epochs};
    ghost use Rattle.cn_epoch.specs.InsideEpochs.{epochs_of, IsEpochs};

    ghost Value = { Epochs };

    ghost view = { epochs_of };

    ghost invariant = { IsEpochs };
}

/// How many left by each exit, from exit 0 up, beyond those that are carried.
fn exit_counts(alloc: Global, core: &Core, network: &Counting) -> Result<Vec<u64>, AllocError>
    requires { network.now ≡ core.now.network }
    ensures exits { IfOk result (λ counts. length counts.items ≡ core.now.network.table.width) }
    ensures counts { IfOk result (λ counts. (exit : ℕ) → exit < core.now.network.table.width
        → slice_index counts.items exit + share core.now.base core.now.network.table.width exit
        ≡ slice_index core.now.visits exit) }
{
    // The core has a count for each exit, and none is less than what is carried.
    core.state_laws();
    let (width, base) = (network.width(), core.base());
    let mut counts = Vec::with_capacity(alloc, width as usize)?;
    for exit in 0..width {
        counts.push_reserved(core.exit_count(exit) - expected(width, base, exit));
    }
    Ok(counts)
}

impl<'a> Epochs<'a> {
    ghost use Rattle.cn_core.specs.declared.event.Event.{Event};
    ghost use Rattle.cn_core.specs.declared.event.Event.TheVariants.{Enter, Step};

    /// The first epoch of a network, that nobody has entered.
    fn begin(
        alloc: Global,
        network: &'a Counting,
        carries: bool,
        state: RandomState,
    ) -> Result<Self, AllocError>
        ensures start { IfOk result (λ epochs.
            epochs ≡ record { number = 0; carries = carries; core = start network.now }) }
        ensures history { IfOk result (λ epochs. core.Agrees epochs.core [] []) }
    {
        Ok(Epochs {
            alloc,
            network,
            number: 0,
            carries,
            core: Core::new(alloc, network, state)?,
        })
    }

    /// The first epoch of a network, that nobody has entered. Each turn clears the counts. The table of its clients
    /// hashes by `state`.
    ///
    /// # Errors
    /// `AllocError` if the counts get no memory.
    pub fn new(alloc: Global, network: &'a Counting, state: RandomState) -> Result<Self, AllocError>
        ensures start { IfOk result (λ epochs.
            epochs ≡ record { number = 0; carries = false; core = start network.now }) }
        ensures history { IfOk result (λ epochs. EpochsAgree epochs 0 [] None) }
    {
        Epochs::begin(alloc, network, false, state)
    }

    /// As [`Epochs::new`], but each turn carries the counts on, as by [`Core::carry`]. For callers in Rattle: a replay
    /// clears its counts.
    ///
    /// # Errors
    /// As there.
    pub fn carrying(
        alloc: Global,
        network: &'a Counting,
        state: RandomState,
    ) -> Result<Self, AllocError>
        ensures start { IfOk result (λ epochs.
            epochs ≡ record { number = 0; carries = true; core = start network.now }) }
        ensures history { IfOk result (λ epochs. EpochsAgree epochs 0 [] (Some [])) }
    {
        Epochs::begin(alloc, network, true, state)
    }

    /// How many epochs have ended.
    pub fn number(&self) -> u64
        ensures value { result ≡ self.now.number }
        ensures by_turns { ByEpochHistories self.now (λ turns history carried. result ≡ turns) }
    {
        self.number
    }

    /// How many clients entered the epoch that stands open: at most [`MOST_CLIENTS`] ([`Epochs::state_laws`]).
    pub fn entered(&self) -> u64
        ensures value { result ≡ length self.now.core.clients }
        ensures by_history { ByEpochHistories self.now (λ turns history carried. result
            ≡ enters_of history) }
    {
        self.core.entered()
    }

    /// How many clients entered in the earlier epochs whose counts are carried: 0 for epochs made by [`Epochs::new`],
    /// and at most [`MOST_CARRIED`]. It takes no memory.
    pub fn base(&self) -> u64
        ensures value { result ≡ self.now.core.base }
        ensures by_history { ByEpochHistories self.now (λ turns history carried. result
            ≡ carried.enters) }
        ensures few { result ≤ MOST_CARRIED }
        ensures cleared { self.now.carries ≡ false → result ≡ 0 }
    {
        self.core.base()
    }

    /// What holds of the epoch that stands open, as by [`Core::state_laws`]: some history since the last turn leads to
    /// it, and by each that does its ledger is sound, and what is carried by each exit is its share of the carried
    /// clients; no count is more than what came in.
    ///
    /// It does nothing: its contract is the law.
    pub fn state_laws(&self)
        ensures few { length self.now.core.clients ≤ MOST_CLIENTS }
        ensures carried { self.now.core.base ≤ MOST_CARRIED }
        ensures came { came_in self.now.core ≡ self.now.core.base + length self.now.core.clients }
        ensures reached { (history : List Event) × (kept : Option (List (List Event)))
            × EpochsAgree self.now self.now.number history kept }
        ensures sound { ByEpochHistories self.now (λ turns. HasSoundLedger self.now.core) }
        ensures shares { ByEpochHistories self.now (λ turns history carried.
            HasShares self.now.core.network.table.width carried) }
        ensures bounded { IsBoundedState self.now.core }
    {
        self.core.state_laws();
    }

    /// How many clients are inside: they entered the epoch that stands open, and hold no name.
    pub fn inside(&self) -> u64
        ensures value { result ≡ inside_in self.now.core }
        ensures by_history { ByEpochHistories self.now (λ turns history carried.
            result ≡ inside_of self.now.core.network.table history carried) }
    {
        self.core.inside()
    }

    /// A client comes in by an entry, as by [`Core::enter`].
    ///
    /// # Errors
    /// As there.
    pub fn enter(&mut self, client: u64, entry: u64) -> Result<(), EnterFault>
        ensures event { EntersTo self.old.core client entry (entered_reply result) self.new.core }
        ensures history { RepliesByHistory self.old (Enter client entry)
            (entered_reply result) self.new }
        ensures ledger { IsLedgerEvent self.old.core (Enter client entry)
            (entered_reply result) self.new.core }
        ensures same { (self.new.number ≡ self.old.number) × (self.new.carries ≡ self.old.carries) }
        ensures network { self.new.core.network ≡ self.old.core.network }
    {
        self.core.enter(client, entry)
    }

    /// A client takes its next step, as by [`Core::step`].
    ///
    /// # Errors
    /// As there.
    pub fn step(&mut self, client: u64) -> Result<Moved, StepFault>
        ensures event { StepsTo self.old.core client (stepped_reply result) self.new.core }
        ensures history { RepliesByHistory self.old (Step client) (stepped_reply result) self.new }
        ensures ledger { IsLedgerEvent self.old.core (Step client)
            (stepped_reply result) self.new.core }
        ensures same { (self.new.number ≡ self.old.number) × (self.new.carries ≡ self.old.carries) }
        ensures network { self.new.core.network ≡ self.old.core.network }
    {
        self.core.step(client)
    }

    /// The next epoch begins.
    fn begin_next(&mut self)
        requires number { self.old.number + 1 < 2 ^ 64 }
        requires quiet { inside_in self.old.core ≡ 0 }
        requires carried { self.old.carries ≡ true
            → self.old.core.base + length self.old.core.clients ≤ MOST_CARRIED }
        ensures { self.new
            ≡ record {
              number = self.old.number + 1;
              carries = self.old.carries;
              core = next self.old.carries self.old.core;
            } }
    {
        if self.carries {
            self.core.carry();
        } else {
            self.core.clear();
        }
        self.number += 1;
    }

    /// Ends the epoch that stands open, if nobody is inside, and returns its record: how many left by each exit, and
    /// the clients by name, each once. An exit's count is its share of the clients; if the counts are carried, it is
    /// what the share of all has grown by. The next epoch begins with nobody.
    ///
    /// Fewer than 2^64 - 1 epochs have ended before ([`Epochs::number`]). If turns carry ([`Epochs::carrying`]), the
    /// carried clients ([`Epochs::base`]) and those that entered are together at most [`MOST_CARRIED`].
    ///
    /// # Errors
    /// `NotQuiet` with the number of clients inside, if there are any; else `Memory` if the record gets none. Then
    /// nothing has changed.
    pub fn turn(&mut self) -> Result<EpochRecord, TurnFault>
        requires number { self.old.number + 1 < 2 ^ 64 }
        requires carried { self.old.carries ≡ true
            → self.old.core.base + length self.old.core.clients ≤ MOST_CARRIED }
        ensures event { TurnsTo self.old (turned_answer result) self.new }
        ensures history { TurnsByHistory self.old (turned_answer result) self.new }
        ensures network { self.new.core.network ≡ self.old.core.network }
    {
        if !self.core.is_quiet() {
            return Err(TurnFault::NotQuiet(self.core.inside()));
        }
        // All that came in are clients of this epoch, or carried.
        self.core.state_laws();
        let Ok(counts) = exit_counts(self.alloc, &self.core, self.network) else {
            return Err(TurnFault::Memory);
        };
        let Ok(holders) = self.core.holders() else {
            return Err(TurnFault::Memory);
        };
        let ended = EpochRecord {
            number: self.number,
            clients: self.core.entered(),
            counts,
            holders,
        };
        self.begin_next();
        Ok(ended)
    }
}
