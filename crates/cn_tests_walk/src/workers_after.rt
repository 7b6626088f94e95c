//! Epochs that go on from words, by one worker and by two: which workers ask the gate, and how often.

use crate::asking::{Tally, new_tally, wrong_asker};
use crate::epochs::{ONE_CLIENT, Row, THREE_CLIENTS, TWO_AT_ONCE, are_named};
use crate::epochs_after::run_after;
use cn_bitonic::bitonic;
use cn_floor::Words;
use cn_ledger::Client;
use cn_wiring::Counting;
use std::alloc::Global;
use std::sync::Wait;
use std::thread::Threads;

/// The first worker has one client, the second two, of whom one is in hand.
const BY_TWO: Row<'_> = (
    THREE_CLIENTS,
    2,
    1,
    [1, 1, 1, 0],
    &[5, 6, 7],
    &[(0, ONE_CLIENT), (1, [2, 6, 2])],
);

/// Two clients of each worker come in by one entry, and go by its balancer together.
const BY_TWO_WITH_TWO: Row<'_> = (
    &[
        Client { id: 5, entry: 0 },
        Client { id: 6, entry: 0 },
        Client { id: 7, entry: 2 },
        Client { id: 8, entry: 2 },
    ],
    2,
    2,
    [1; 4],
    &[5, 6, 7, 8],
    &[(0, [2, 5, 2]), (1, [2, 5, 2])],
);

/// Whether so many leave by each exit, and these have names.
fn are_found<R: Threads + Wait + Sync>(
    rt: &R,
    alloc: Global,
    words: &Words<'_>,
    row: &Row<'_>,
    gate: &Tally,
) -> Option<[bool; 2]> {
    let ended = run_after(rt, alloc, words, row.0, row.1, row.2, gate);
    are_named(&ended.ok()?, &row.3, row.4)
}

/// The same from words of 0.
fn are_found_at_first<R: Threads + Wait + Sync>(
    rt: &R,
    alloc: Global,
    network: &Counting,
    row: &Row<'_>,
    gate: &Tally,
) -> Option<[bool; 2]> {
    match Words::zero(alloc, network) {
        Ok(words) => are_found(rt, alloc, &words, row, gate),
        Err(_) => None,
    }
}

/// Whether all of a row is so on bitonic 4.
fn is_asked<R: Threads + Wait + Sync>(rt: &R, alloc: Global, row: &Row<'_>) -> Option<bool> {
    let gate = new_tally(alloc)?;
    let network = bitonic(alloc, 4).ok()?;
    let found = are_found_at_first(rt, alloc, &network, row, &gate);
    Some(found == Some([true; 2]) && wrong_asker(&gate, row.5).is_none())
}

#[test]
fn workers_and_hand(rt: HostRuntime) {
    let alloc = rt.alloc();
    let found = [
        is_asked(&rt, alloc, &BY_TWO),
        is_asked(&rt, alloc, &TWO_AT_ONCE),
        is_asked(&rt, alloc, &BY_TWO_WITH_TWO),
    ];
    assert_eq!(rt; found, [Some(true); 3]);
}
