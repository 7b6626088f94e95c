//! For callers in Rattle: one epoch, run by so many workers, and its closed floor with all that it counted. The program
//! uses [`crate::Runner`], which keeps between epochs what they share, and walks in the same way.

ghost use Rattle.std.specs.Prelude.{◌≡◌, ◌≤◌, IfErr, IfOk, OnOk, length};
ghost use Rattle.cn_spec.specs.declared.limits.TheConstants.{MOST_CARRIED, MOST_CLIENTS, MOST_NAMED};
ghost use Rattle.cn_floor.specs.Carried.{client_count, words_before, zero_words};
ghost use Rattle.cn_floor.specs.Lane.{empty_lane};
ghost use Rattle.cn_walk.specs.Runs.{IsRefused, IsRun, IsRunAfter, MayRun};
ghost use Rattle.cn_walk.specs.Walks.{AreInOrder};

use crate::crew::Crew;
use crate::running::{RunFault, may_run, walk_and_close};
use cn_floor::{Floor, Gate, Lane, Quiet, Words};
use cn_ledger::Client;
use cn_spec::limits::MOST_CLIENTS;
use cn_tables::Counting;
use std::alloc::Global;
use std::sync::Wait;
use std::thread::Threads;

/// Runs an epoch of these clients over the network, by so many workers, each with so many clients in hand
/// ([`crate::walk_all`]). Of k clients, worker j of n has those at the positions from `j * k / n` up to, not including,
/// `(j + 1) * k / n`, both rounded down; one that has none gets no lane and no thread. All lanes are made, and their
/// memory is reserved, before the first worker starts. One worker starts no thread, and a fork that gets no thread has
/// its parts walk one after the other.
///
/// It returns only if the gate lets each worker on. A gate that waits for another worker may never do so, if that
/// worker gets no thread. It is [`run_epoch_after`] of words that are all 0.
///
/// By one worker with one client in hand the clients get the names from 0 up in their order.
///
/// # Errors
/// The first that stands: `Workers`, `Hand`, `TooMany`, `NoSuchEntry`, `Memory`. Then no worker is left running.
pub fn run_epoch<'a, G: Gate + Sync, R: Threads + Wait + Sync>(
    rt: &R,
    alloc: Global,
    network: &'a Counting,
    clients: &[Client],
    workers: u32,
    hand: u32,
    gate: &G,
) -> Result<Quiet<'a>, RunFault>
    ensures run { IfOk result (λ quiet. IsRun network.now clients.now quiet) }
    ensures in_order { workers ≡ 1 → hand ≡ 1
        → IfOk result (λ quiet. AreInOrder 0 clients.now quiet.did.grants) }
    ensures zero { IfOk result (λ quiet. IsRunAfter (zero_words network.now) clients.now quiet) }
    ensures refused { IfErr result (λ fault.
        IsRefused MOST_CLIENTS network.now.table.entries clients.now workers hand fault) }
    ensures allowed { OnOk result (MayRun MOST_CLIENTS network.now.table.entries clients.now workers hand) }
{
    may_run(network, clients, workers, hand, MOST_CLIENTS)?;
    let Ok((floor, lane)) = Floor::open(alloc, network, clients.len() as u64) else {
        return Err(RunFault::Memory);
    };
    let crew = Crew {
        first: 0,
        workers,
        hand,
    };
    walk_to_quiet(rt, alloc, floor, lane, clients, crew, gate)
}

/// Runs an epoch of these clients as [`run_epoch`] does, on a floor that goes on from the words of earlier ones, and
/// leaves the words as they were. Its counts and passes are those of this epoch, and its names are those below the
/// number of its clients. The words of its [`Quiet`] can be gone on from in turn.
///
/// # Errors
/// As those of [`run_epoch`], in its order.
pub fn run_epoch_after<'a, G: Gate + Sync, R: Threads + Wait + Sync>(
    rt: &R,
    alloc: Global,
    words: &Words<'a>,
    clients: &[Client],
    workers: u32,
    hand: u32,
    gate: &G,
) -> Result<Quiet<'a>, RunFault>
    requires few { client_count words.now ≤ MOST_CARRIED }
    ensures run { IfOk result (λ quiet. IsRunAfter words.now clients.now quiet) }
    ensures in_order { workers ≡ 1 → hand ≡ 1
        → IfOk result (λ quiet. AreInOrder 0 clients.now quiet.did.grants) }
    ensures refused { IfErr result (λ fault.
        IsRefused MOST_CLIENTS words.now.network.table.entries clients.now workers hand fault) }
    ensures allowed { OnOk result (MayRun MOST_CLIENTS words.now.network.table.entries clients.now workers hand) }
{
    may_run(words.network(), clients, workers, hand, MOST_CLIENTS)?;
    let Ok((floor, lane)) = Floor::open_after(alloc, words, clients.len() as u64) else {
        return Err(RunFault::Memory);
    };
    let crew = Crew {
        first: 0,
        workers,
        hand,
    };
    walk_to_quiet(rt, alloc, floor, lane, clients, crew, gate)
}

/// Walks these clients over a floor that was opened for them: the closed floor.
///
/// # Errors
/// `Memory`.
fn walk_to_quiet<'a, G: Gate + Sync, R: Threads + Wait + Sync>(
    rt: &R,
    alloc: Global,
    floor: Floor<'a>,
    lane: Lane,
    clients: &[Client],
    crew: Crew,
    gate: &G,
) -> Result<Quiet<'a>, RunFault>
    requires lane { lane ≡ empty_lane floor (length clients.now) }
    requires quota { floor.start.quota ≡ length clients.now }
    requires allowed { MayRun MOST_NAMED floor.start.network.table.entries clients.now crew.workers crew.hand }
    ensures run { IfOk result (λ quiet.
        IsRunAfter (words_before floor.entry.start) clients.now quiet) }
    ensures in_order { crew.workers ≡ 1 → crew.hand ≡ 1
        → IfOk result (λ quiet. AreInOrder 0 clients.now quiet.did.grants) }
    ensures refused { IfErr result (λ fault. fault ≡ RunFault.Memory) }
{
    match walk_and_close(rt, alloc, floor, lane, clients, crew, gate) {
        Ok((closed, leftovers)) => match closed.into_quiet(leftovers) {
            Ok(quiet) => Ok(quiet),
            Err(_memory) => Err(RunFault::Memory),
        },
        Err(_leftovers) => Err(RunFault::Memory),
    }
}
