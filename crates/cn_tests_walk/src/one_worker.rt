//! Epochs that one worker runs: how many left by each exit, how many passed each balancer, and the clients by name.

use crate::epochs::run;
use cn_bitonic::bitonic;
use cn_floor::{OpenGate, Quiet};
use cn_ledger::Client;
use cn_periodic::periodic;
use cn_wiring::{BuildFault, Counting};
use std::alloc::Global;
use std::sync::Wait;
use std::thread::Threads;

/// Clients, and the hand of one worker; how many leave by each exit and pass each balancer, and the clients by name.
type Row = (
    &'static [Client],
    u32,
    [u64; 4],
    &'static [u64],
    &'static [u64],
);

/// Whether so many left by each exit and passed each balancer, and these are the clients by name.
fn are_left(quiet: &Quiet<'_>, row: &Row) -> [bool; 3] {
    let are_holders = match quiet.holders() {
        Ok(holders) => holders.as_slice() == row.4,
        Err(_) => false,
    };
    [
        quiet.counts() == row.2.as_slice(),
        quiet.passes() == row.3,
        are_holders,
    ]
}

fn is_run<R: Threads + Wait + Sync>(
    rt: &R,
    alloc: Global,
    network: &Result<Counting, BuildFault>,
    row: &Row,
) -> Option<[bool; 3]> {
    match network {
        Ok(network) => match run(rt, alloc, network, row.0, 1, row.1, &OpenGate) {
            Ok(quiet) => Some(are_left(&quiet, row)),
            Err(_) => None,
        },
        Err(_) => None,
    }
}

/// The place of the first of these rows that ends otherwise.
fn wrong_row<R: Threads + Wait + Sync>(
    rt: &R,
    alloc: Global,
    network: &Result<Counting, BuildFault>,
    rows: &[Row],
) -> Option<usize> {
    for (place, row) in rows.iter().enumerate() {
        if is_run(rt, alloc, network, row) != Some([true; 3]) {
            return Some(place);
        }
    }
    None
}

/// The same on the bitonic network of width 4.
fn wrong_on_bitonic<R: Threads + Wait + Sync>(
    rt: &R,
    alloc: Global,
    rows: &[Row],
) -> Option<usize> {
    wrong_row(rt, alloc, &bitonic(alloc, 4), rows)
}

/// The same on the periodic network of width 4.
fn wrong_on_periodic<R: Threads + Wait + Sync>(
    rt: &R,
    alloc: Global,
    rows: &[Row],
) -> Option<usize> {
    wrong_row(rt, alloc, &periodic(alloc, 4), rows)
}

const NO_CLIENTS: Row = (&[], 1, [0; 4], &[0; 6], &[]);

#[test]
fn empty_epoch(rt: HostRuntime) {
    assert_eq!(rt; wrong_on_bitonic(&rt, rt.alloc(), &[NO_CLIENTS]), None);
}

const FIVE_ON_ONE_ENTRY: Row = (
    &[
        Client { id: 17, entry: 3 },
        Client { id: 5, entry: 3 },
        Client { id: 99, entry: 3 },
        Client { id: 23, entry: 3 },
        Client { id: 42, entry: 3 },
    ],
    1,
    [2, 1, 1, 1],
    &[0, 5, 2, 3, 3, 2],
    &[17, 5, 99, 23, 42],
);

#[test]
fn five_on_one_entry(rt: HostRuntime) {
    let wrong = wrong_on_bitonic(&rt, rt.alloc(), &[FIVE_ON_ONE_ENTRY]);
    assert_eq!(rt; wrong, None);
}

/// Client 8 passes the balancers 0, 2 and 4, client 9 passes 1, 3 and 4.
const TWO_ENTRIES: Row = (
    &[Client { id: 8, entry: 0 }, Client { id: 9, entry: 2 }],
    1,
    [1, 1, 0, 0],
    &[1, 1, 1, 1, 2, 0],
    &[8, 9],
);

#[test]
fn bitonic_two_entries(rt: HostRuntime) {
    assert_eq!(rt; wrong_on_bitonic(&rt, rt.alloc(), &[TWO_ENTRIES]), None);
}

/// Client 8 passes the balancers 0, 2, 4 and 6, client 9 passes 0, 3, 5 and 6.
const ONE_ENTRY: Row = (
    &[Client { id: 8, entry: 0 }, Client { id: 9, entry: 0 }],
    1,
    [1, 1, 0, 0],
    &[2, 0, 1, 1, 1, 1, 2, 0],
    &[8, 9],
);

#[test]
fn periodic_one_entry(rt: HostRuntime) {
    assert_eq!(rt; wrong_on_periodic(&rt, rt.alloc(), &[ONE_ENTRY]), None);
}

const TWO: &[Client] = &[Client { id: 100, entry: 2 }, Client { id: 200, entry: 0 }];

const THREE: &[Client] = &[
    Client { id: 10, entry: 3 },
    Client { id: 20, entry: 1 },
    Client { id: 30, entry: 0 },
];

const FOUR: &[Client] = &[
    Client { id: 10, entry: 3 },
    Client { id: 20, entry: 2 },
    Client { id: 30, entry: 1 },
    Client { id: 40, entry: 0 },
];

/// Of the clients in a hand, the lowest wire goes first: so each hand has its own order of names, and each client's
/// name is that of its own entry.
const HANDS: [Row; 8] = [
    (TWO, 1, [1, 1, 0, 0], &[1, 1, 1, 1, 2, 0], &[100, 200]),
    (TWO, 2, [1, 1, 0, 0], &[1, 1, 1, 1, 2, 0], &[200, 100]),
    (THREE, 1, [1, 1, 1, 0], &[2, 1, 1, 2, 2, 1], &[10, 20, 30]),
    (THREE, 2, [1, 1, 1, 0], &[2, 1, 1, 2, 2, 1], &[20, 10, 30]),
    (THREE, 3, [1, 1, 1, 0], &[2, 1, 1, 2, 2, 1], &[30, 20, 10]),
    (FOUR, 3, [1; 4], &[2; 6], &[30, 20, 10, 40]),
    (FOUR, 4, [1; 4], &[2; 6], &[40, 30, 10, 20]),
    (FOUR, 64, [1; 4], &[2; 6], &[40, 30, 10, 20]),
];

#[test]
fn hand_decides_order(rt: HostRuntime) {
    assert_eq!(rt; wrong_on_bitonic(&rt, rt.alloc(), &HANDS), None);
}
