//! An epoch that many workers run.

ghost use Rattle.std.specs.Prelude.{◌≡◌, IfErr, IfOk, OnOk, length};
ghost use Rattle.cn_spec.specs.declared.limits.TheConstants.{MOST_NAMED};
ghost use Rattle.cn_floor.specs.Carried.{words_before};
ghost use Rattle.cn_floor.specs.Lane.{IsIdle, empty_lane};
ghost use Rattle.cn_walk.specs.Runs.{IsRefused, IsRunAfter, MayRun};
ghost use Rattle.cn_walk.specs.Walks.{AreInOrder};

use crate::crew::Crew;
use crate::forking::{make_lanes, walk_lanes};
use cn_floor::{CloseFault, ClosedFloor, Floor, Gate, Lane, Leftovers};
use cn_ledger::Client;
use cn_spec::limits::{MOST_HAND, MOST_WORKERS};
use cn_tables::Counting;
use std::alloc::Global;
use std::sync::Wait;
use std::thread::Threads;

/// Why an epoch is not run; of several causes the first in this order is given.
#[derive(Clone, Copy, Debug, PartialEq, Eq)]
pub enum RunFault {
    /// There are no workers, or more than [`MOST_WORKERS`].
    Workers,
    /// The hand is 0, or more than [`MOST_HAND`].
    Hand,
    /// There are more clients than an epoch may have: [`cn_spec::limits::MOST_CLIENTS`], and for a
    /// [`crate::Runner`] [`cn_spec::limits::MOST_NAMED`].
    TooMany,
    /// The client at this position, counted from 0, comes by an entry that the network lacks, and none before it does.
    NoSuchEntry(u64),
    /// A growth was refused.
    Memory,
}

/// Whether an epoch may be run, of so many clients at most.
pub(crate) fn may_run(
    network: &Counting,
    clients: &[Client],
    workers: u32,
    hand: u32,
    most: u64,
) -> Result<(), RunFault>
    ensures refused { IfErr result (λ fault.
        IsRefused most network.now.table.entries clients.now workers hand fault) }
    ensures allowed { OnOk result (MayRun most network.now.table.entries clients.now workers hand) }
{
    if workers == 0 || workers > MOST_WORKERS {
        return Err(RunFault::Workers);
    }
    if hand == 0 || hand > MOST_HAND {
        return Err(RunFault::Hand);
    }
    if clients.len() as u64 > most {
        return Err(RunFault::TooMany);
    }
    let entries = u64::from(network.entries());
    for position in 0..clients.len() {
        if clients[position].entry >= entries {
            return Err(RunFault::NoSuchEntry(position as u64));
        }
    }
    Ok(())
}

/// Walks these clients over a floor that was opened for them, and closes it. If memory is refused, what is left of it
/// has the words with which it began, as it has after it is closed.
pub(crate) fn walk_and_close<'a, G: Gate + Sync, R: Threads + Wait + Sync>(
    rt: &R,
    alloc: Global,
    floor: Floor<'a>,
    lane: Lane,
    clients: &[Client],
    crew: Crew,
    gate: &G,
) -> Result<(ClosedFloor<'a>, Leftovers<'a>), Leftovers<'a>>
    requires lane { lane ≡ record (empty_lane floor (length clients.now)) { yard = lane.yard } }
    requires idle { IsIdle floor.start.network lane.yard.lists }
    requires quota { floor.start.quota ≡ length clients.now }
    requires allowed { MayRun MOST_NAMED floor.start.network.table.entries clients.now crew.workers crew.hand }
    ensures run { IfOk result (λ r. IsRunAfter (words_before floor.entry.start) clients.now r.0) }
    ensures in_order { crew.workers ≡ 1 → crew.hand ≡ 1
        → IfOk result (λ r. AreInOrder 0 clients.now r.0.did.grants) }
    ensures began { IfOk result (λ r. words_before r.0.start ≡ words_before floor.entry.start) }
    ensures leftovers { IfOk result (λ r. r.1.words ≡ words_before floor.entry.start) }
    ensures back { IfErr result (λ back. back.words ≡ words_before floor.entry.start) }
{
    let many = clients.len() as u32;
    let Some(lanes) = make_lanes(alloc, &floor, lane, many, crew, 0, crew.workers) else {
        return Err(floor.give_up());
    };
    let lane = walk_lanes(rt, &floor, lanes, clients, crew, gate);
    match floor.close_for(lane) {
        Ok((closed, leftovers)) => {
            closed.closed_laws();
            Ok((closed, leftovers))
        }
        Err(CloseFault::Memory(floor, _lane)) => Err(floor.give_up()),
        Err(CloseFault::StillWalking(_floor, _lane)) => unreachable!(),
        Err(
            CloseFault::LanesMissing {
                entered: _entered,
                granted: _granted,
                grants: _grants,
            },
        ) => unreachable!(),
    }
}
