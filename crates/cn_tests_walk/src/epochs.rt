//! Epochs that one worker or many run.

use crate::asking::{Often, Tally, new_tally, wrong_asker};
use cn_bitonic::bitonic;
use cn_floor::{Gate, OpenGate, Quiet};
use cn_ledger::Client;
use cn_tree::tree;
use cn_walk::{RunFault, run_epoch};
use cn_wiring::Counting;
use std::alloc::Global;
use std::sync::Wait;
use std::thread::Threads;

/// Runs an epoch.
pub(crate) fn run<'a, G: Gate + Sync, R: Threads + Wait + Sync>(
    rt: &R,
    alloc: Global,
    network: &'a Counting,
    clients: &[Client],
    workers: u32,
    hand: u32,
    gate: &G,
) -> Result<Quiet<'a>, RunFault> {
    run_epoch(rt, alloc, network, clients, workers, hand, gate)
}

/// Whether so many left by each exit, and these clients have names.
pub(crate) fn are_named(quiet: &Quiet<'_>, counts: &[u64], clients: &[u64]) -> Option<[bool; 2]> {
    let mut named = quiet.holders().ok()?;
    named.sort().ok()?;
    Some([quiet.counts() == counts, named.as_slice() == clients])
}

/// Clients on bitonic 4, how many workers, and the hand; how many leave by each exit, who has names, and which workers
/// ask how often.
pub(crate) type Row<'a> = (&'a [Client], u32, u32, [u64; 4], &'a [u64], &'a [Often]);

pub(crate) const THREE_CLIENTS: &[Client] = &[
    Client { id: 5, entry: 0 },
    Client { id: 6, entry: 1 },
    Client { id: 7, entry: 2 },
];

pub(crate) const ONE_CLIENT: [u64; 3] = [1, 3, 1];

const BY_ONE: Row<'_> = (
    THREE_CLIENTS,
    1,
    1,
    [1, 1, 1, 0],
    &[5, 6, 7],
    &[(0, [3, 9, 3])],
);

const BY_EIGHT: Row<'_> = (
    THREE_CLIENTS,
    8,
    1,
    [1, 1, 1, 0],
    &[5, 6, 7],
    &[(2, ONE_CLIENT), (5, ONE_CLIENT), (7, ONE_CLIENT)],
);

const BY_SIXTY_FOUR: Row<'_> = (
    THREE_CLIENTS,
    64,
    1,
    [1, 1, 1, 0],
    &[5, 6, 7],
    &[(21, ONE_CLIENT), (42, ONE_CLIENT), (63, ONE_CLIENT)],
);

/// The two come in by one entry, and go by its balancer together.
pub(crate) const TWO_AT_ONCE: Row<'_> = (
    &[Client { id: 5, entry: 0 }, Client { id: 6, entry: 0 }],
    1,
    2,
    [1, 1, 0, 0],
    &[5, 6],
    &[(0, [2, 5, 2])],
);

/// Whether so many leave by each exit, and these have names.
fn are_found<R: Threads + Wait + Sync>(
    rt: &R,
    alloc: Global,
    row: &Row<'_>,
    gate: &Tally,
) -> Option<[bool; 2]> {
    match bitonic(alloc, 4) {
        Ok(network) => are_found_on(rt, alloc, &network, row, gate),
        Err(_) => None,
    }
}

fn are_found_on<R: Threads + Wait + Sync>(
    rt: &R,
    alloc: Global,
    network: &Counting,
    row: &Row<'_>,
    gate: &Tally,
) -> Option<[bool; 2]> {
    let (clients, workers, hand, counts, named, _) = row;
    match run(rt, alloc, network, clients, *workers, *hand, gate) {
        Ok(quiet) => are_named(&quiet, counts, named),
        Err(_) => None,
    }
}

/// Whether all of a row is so.
fn is_asked<R: Threads + Wait + Sync>(rt: &R, alloc: Global, row: &Row<'_>) -> bool {
    let Some(gate) = new_tally(alloc) else {
        return false;
    };
    are_found(rt, alloc, row, &gate) == Some([true; 2]) && wrong_asker(&gate, row.5).is_none()
}

/// The place of the first of these rows that is not so.
fn wrong_row<R: Threads + Wait + Sync>(rt: &R, alloc: Global, rows: &[Row<'_>]) -> Option<usize> {
    for (place, row) in rows.iter().enumerate() {
        if !is_asked(rt, alloc, row) {
            return Some(place);
        }
    }
    None
}

#[test]
fn idle_workers(rt: HostRuntime) {
    let rows = [BY_ONE, BY_EIGHT, BY_SIXTY_FOUR];
    assert_eq!(rt; wrong_row(&rt, rt.alloc(), &rows), None);
}

#[test]
fn a_sweep_asks_once(rt: HostRuntime) {
    assert_eq!(rt; wrong_row(&rt, rt.alloc(), &[TWO_AT_ONCE]), None);
}

/// Numbers from 0 up to, not including, 64, and that each worker of these numbers asks as for one client.
fn sixty_four(alloc: Global) -> Option<(Vec<u64>, Vec<Often>)> {
    let mut numbers = Vec::new(alloc);
    let mut often = Vec::new(alloc);
    for number in 0..64 {
        numbers.push(number).ok()?;
        often.push((number as usize, ONE_CLIENT)).ok()?;
    }
    Some((numbers, often))
}

/// Whether 64 workers with a client each ask in their own names.
fn ask_in_their_names<R: Threads + Wait + Sync>(rt: &R, alloc: Global) -> Option<bool> {
    let clients = many_clients(alloc, 64, 1)?;
    let (named, often) = sixty_four(alloc)?;
    let row = (
        clients.as_slice(),
        64,
        1,
        [16; 4],
        named.as_slice(),
        often.as_slice(),
    );
    Some(is_asked(rt, alloc, &row))
}

#[test]
fn each_worker_asks_in_its_own_name(rt: HostRuntime) {
    assert_eq!(rt; ask_in_their_names(&rt, rt.alloc()), Some(true));
}

/// This many clients, numbered from 0, the first on entry 0 and the others on this entry.
fn many_clients(alloc: Global, clients: u64, entry: u64) -> Option<Vec<Client>> {
    let mut all = Vec::new(alloc);
    for id in 0..clients {
        let entry = if id == 0 { 0 } else { entry };
        all.push(Client { id, entry }).ok()?;
    }
    Some(all)
}

/// Why an epoch on tree 64 is not run.
fn refusal<R: Threads + Wait + Sync>(
    rt: &R,
    alloc: Global,
    clients: u64,
    workers: u32,
    hand: u32,
) -> Option<RunFault> {
    let clients = many_clients(alloc, clients, 1)?;
    let network = tree(alloc, 64).ok()?;
    run(rt, alloc, &network, &clients, workers, hand, &OpenGate).err()
}

/// How many clients there are, how many workers, the hand, and why they are refused.
const REFUSED: [(u64, u32, u32, RunFault); 6] = [
    (3, 0, 0, RunFault::Workers),
    (3, 65, 65, RunFault::Workers),
    (262_145, 64, 0, RunFault::Hand),
    (262_145, 1, 65, RunFault::Hand),
    (262_145, 1, 64, RunFault::TooMany),
    (3, 1, 1, RunFault::NoSuchEntry(1)),
];

/// The place of the first row that is not refused so.
fn wrong_refusal<R: Threads + Wait + Sync>(rt: &R, alloc: Global) -> Option<usize> {
    for (place, row) in REFUSED.iter().enumerate() {
        if refusal(rt, alloc, row.0, row.1, row.2) != Some(row.3) {
            return Some(place);
        }
    }
    None
}

#[test]
fn refused_in_order(rt: HostRuntime) {
    assert_eq!(rt; wrong_refusal(&rt, rt.alloc()), None);
}

/// Whether so many left by each exit, and client n has name n, for all of them.
fn are_in_order(quiet: &Quiet<'_>, counts: &[u64], clients: u64) -> [bool; 2] {
    let in_order = match quiet.holders() {
        Ok(holders) => holders.iter().copied().eq(0..clients),
        Err(_) => false,
    };
    [quiet.counts() == counts, in_order]
}

/// The width of a counting tree, how many clients enter it, and how many leave by each exit.
type Full = (u32, u64, &'static [u64]);

/// 65,536 clients, and as many as an epoch may have.
const FULL: [Full; 2] = [(64, 65_536, &[1_024; 64]), (256, 262_144, &[1_024; 256])];

/// Runs clients over the tree of a width.
fn is_full<R: Threads + Wait + Sync>(
    rt: &R,
    alloc: Global,
    clients: &[Client],
    row: &Full,
) -> Option<[bool; 2]> {
    match tree(alloc, row.0) {
        Ok(network) => is_full_on(rt, alloc, &network, clients, row),
        Err(_) => None,
    }
}

fn is_full_on<R: Threads + Wait + Sync>(
    rt: &R,
    alloc: Global,
    network: &Counting,
    clients: &[Client],
    row: &Full,
) -> Option<[bool; 2]> {
    match run(rt, alloc, network, clients, 1, 1, &OpenGate) {
        Ok(quiet) => Some(are_in_order(&quiet, row.2, row.1)),
        Err(_) => None,
    }
}

/// The same of as many clients as the row says.
fn fills<R: Threads + Wait + Sync>(rt: &R, alloc: Global, row: &Full) -> Option<[bool; 2]> {
    let clients = many_clients(alloc, row.1, 0)?;
    is_full(rt, alloc, &clients, row)
}

#[test]
fn limits(rt: HostRuntime) {
    let found = [
        fills(&rt, rt.alloc(), &FULL[0]),
        fills(&rt, rt.alloc(), &FULL[1]),
    ];
    assert_eq!(rt; found, [Some([true, true]), Some([true, true])]);
}
