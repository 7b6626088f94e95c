//! Epochs over one network, one after another.

ghost use Rattle.std.specs.Prelude.{◌≡◌, ◌≤◌, IfErr, IfOk, OnErr, OnOk};
ghost use Rattle.cn_spec.specs.declared.limits.TheConstants.{MOST_CARRIED, MOST_NAMED};
ghost use Rattle.cn_floor.specs.Carried.{client_count, words_before, zero_words};
ghost use Rattle.cn_walk.specs.Runner.{next_runner};
ghost use Rattle.cn_walk.specs.Runs.{IsRefused, IsRunAfter, MayRun};
ghost use Rattle.cn_walk.specs.Walks.{AreInOrder};

use crate::crew::Crew;
use crate::running::{RunFault, may_run, walk_and_close};
use cn_floor::{ClosedFloor, Floor, Gate, Leftovers, Words};
use cn_ledger::Client;
use cn_spec::limits::MOST_NAMED;
use cn_tables::Counting;
use std::alloc::{AllocError, Global};
use std::marker::Model;
use std::sync::Wait;
use std::thread::Threads;

/// Runs epochs over one network, one after another, and keeps what they share: the words with which each begins, and
/// the yard of the first worker's lane. If it carries, each epoch goes on from the words of the last; else all begin
/// with words that are 0.
#[derive(Drop)]
pub struct Runner<'a> {
    leftovers: Leftovers<'a>,
    carries: bool,
}

impl<'a> Model for Runner<'a> {
    ghost use Rattle.cn_walk.specs.InsideRunner.{runner_of};
    ghost use Rattle.cn_walk.specs.Runner.{RunnerValue};

    ghost Value = { RunnerValue };

    ghost view = { runner_of };
}

impl<'a> Runner<'a> {
    /// Epochs over a network, of which the first begins with words that are all 0.
    ///
    /// # Errors
    /// `AllocError` if it gets no memory.
    pub fn new(
        alloc: Global,
        network: &'a Counting,
        carries: bool,
    ) -> Result<Runner<'a>, AllocError>
        ensures zero { IfOk result (λ r. r
            ≡ record { words = zero_words network.now; carries = carries }) }
        ensures nobody { IfOk result (λ r. client_count r.words ≡ 0) }
    {
        Ok(Runner {
            leftovers: Leftovers::new(alloc, network)?,
            carries,
        })
    }

    /// The words with which the next epoch begins.
    pub fn words(&self) -> &Words<'a>
        ensures { result.now ≡ self.now.words }
    {
        self.leftovers.words()
    }

    /// Runs an epoch of these clients by a crew, on a floor that goes on from the runner's words: the runner for the
    /// next epoch, and the closed floor. Of k clients, worker j of n has those at the positions from `j * k / n` up to,
    /// not including, `(j + 1) * k / n`, both rounded down; one that has none gets no lane and no thread. All lanes are
    /// made, and their memory is reserved, before the first worker starts. One worker starts no thread, and a fork that
    /// gets no thread has its parts walk one after the other. It returns only if the gate lets each worker on. If
    /// several workers are refused memory, what they hold is let go, and the first of them runs the epoch again.
    ///
    /// # Errors
    /// The first that stands: `Workers`, `Hand`, `TooMany`, `NoSuchEntry`, `Memory`. Then the words are as they were,
    /// and no worker is left running.
    pub fn run<G: Gate + Sync, R: Threads + Wait + Sync>(
        self,
        rt: &R,
        alloc: Global,
        clients: &[Client],
        crew: Crew,
        gate: &G,
    ) -> (Runner<'a>, Result<ClosedFloor<'a>, RunFault>)
        requires few { client_count self.words ≤ MOST_CARRIED }
        ensures run { IfOk result.1 (λ closed. IsRunAfter self.entry.words clients.now closed) }
        ensures in_order { crew.workers ≡ 1 → crew.hand ≡ 1
            → IfOk result.1 (λ closed. AreInOrder 0 clients.now closed.did.grants) }
        ensures next { IfOk result.1 (λ closed. result.0 ≡ next_runner self.entry closed) }
        ensures back { OnErr result.1 (result.0 ≡ self.entry) }
        ensures refused { IfErr result.1 (IsRefused MOST_NAMED self.entry.words.network.table.entries
            clients.now crew.workers crew.hand) }
        ensures allowed { OnOk result.1 (MayRun MOST_NAMED self.entry.words.network.table.entries
            clients.now crew.workers crew.hand) }
    {
        let network = self.words().network();
        if let Err(fault) = may_run(network, clients, crew.workers, crew.hand, MOST_NAMED) {
            return (self, Err(fault));
        }
        let Runner { leftovers, carries } = self;
        let ended = match open_and_walk(rt, alloc, leftovers, clients, crew, gate) {
            Err(leftovers) if crew.workers > 1 => {
                let one = Crew { workers: 1, ..crew };
                open_and_walk(rt, alloc, leftovers, clients, one, gate)
            }
            ended => ended,
        };
        match ended {
            Ok((closed, leftovers)) => { (runner_after(&closed, leftovers, carries), Ok(closed)) }
            Err(leftovers) => (Runner { leftovers, carries }, Err(RunFault::Memory)),
        }
    }
}

/// Walks the clients of an epoch that may be run over a floor that goes on from these leftovers. If memory is refused,
/// leftovers with the same words come back.
fn open_and_walk<'a, G: Gate + Sync, R: Threads + Wait + Sync>(
    rt: &R,
    alloc: Global,
    leftovers: Leftovers<'a>,
    clients: &[Client],
    crew: Crew,
    gate: &G,
) -> Result<(ClosedFloor<'a>, Leftovers<'a>), Leftovers<'a>>
    requires few { client_count leftovers.words ≤ MOST_CARRIED }
    requires allowed { MayRun MOST_NAMED leftovers.words.network.table.entries clients.now crew.workers crew.hand }
    ensures run { IfOk result (λ r. IsRunAfter leftovers.entry.words clients.now r.0) }
    ensures in_order { crew.workers ≡ 1 → crew.hand ≡ 1
        → IfOk result (λ r. AreInOrder 0 clients.now r.0.did.grants) }
    ensures began { IfOk result (λ r. words_before r.0.start ≡ leftovers.entry.words) }
    ensures leftovers { IfOk result (λ r. r.1.words ≡ leftovers.entry.words) }
    ensures back { IfErr result (λ back. back.words ≡ leftovers.entry.words) }
{
    let (floor, lane) = Floor::open_on(alloc, leftovers, clients.len() as u64)?;
    walk_and_close(rt, alloc, floor, lane, clients, crew, gate)
}

/// The runner after an epoch.
fn runner_after<'a>(closed: &ClosedFloor<'a>, leftovers: Leftovers<'a>, carries: bool) -> Runner<'a>
    requires { leftovers.words ≡ words_before closed.now.start }
    ensures { result ≡ next_runner (record { words = leftovers.entry.words; carries = carries }) closed.now }
{
    let leftovers = if carries {
        leftovers.go_on_from(closed)
    } else {
        leftovers
    };
    Runner { leftovers, carries }
}
