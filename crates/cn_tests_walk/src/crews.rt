//! Crews whose workers ask a gate under their own numbers.

use crate::asking::{Tally, new_tally, wrong_asker};
use cn_bitonic::bitonic;
use cn_ledger::Client;
use cn_walk::{Crew, Runner};
use std::alloc::Global;
use std::sync::Wait;
use std::thread::Threads;

/// Runs an epoch of two clients by a crew of two whose first number is 3.
fn run_from_three<R: Threads + Wait + Sync>(rt: &R, alloc: Global, gate: &Tally) -> Option<()> {
    let network = bitonic(alloc, 2).ok()?;
    let runner = Runner::new(alloc, &network, false).ok()?;
    let clients = [Client { id: 7, entry: 0 }, Client { id: 9, entry: 1 }];
    let crew = Crew {
        first: 3,
        workers: 2,
        hand: 1,
    };
    let (_, ended) = runner.run(rt, alloc, &clients, crew, gate);
    ended.ok().map(drop)
}

/// Whether each worker of that crew asks once before each step, under its own number, and nobody else asks.
fn ask_under_their_numbers<R: Threads + Wait + Sync>(rt: &R, alloc: Global) -> Option<bool> {
    let gate = new_tally(alloc)?;
    run_from_three(rt, alloc, &gate)?;
    Some(wrong_asker(&gate, &[(3, [1; 3]), (4, [1; 3])]).is_none())
}

#[test]
fn crews_ask_under_their_numbers(rt: HostRuntime) {
    assert_eq!(rt; ask_under_their_numbers(&rt, rt.alloc()), Some(true));
}
