//! The calls of a floor, in order: the caller of the page of cn_floor.

ghost use Rattle.std.specs.Prelude.{◌≡◌};

use cn_bitonic::bitonic;
use cn_floor::{Floor, Lane, OpenGate};
use cn_ledger::Client;
use cn_walk::run_epoch;
use std::alloc::Global;
use std::sync::Wait;
use std::thread::Threads;

/// What a thread does with its own lane: two clients come in, and walk out together; a third is named by one call.
pub fn name_three(floor: &Floor<'_>, lane: &mut Lane, clients: [u64; 3]) -> Option<u64>
    requires { lane.old.home ≡ floor.now }
    ensures { lane.new.home ≡ lane.old.home }
{
    floor.enter(lane, clients[0], 3).ok()?;
    floor.enter(lane, clients[1], 0).ok()?;
    for _ in 0..64 {
        if let Some(wire) = lane.lowest() {
            floor.sweep(lane, wire); // all tokens on the wire, by one add: Sweep::On or Sweep::Out
        }
    }
    if lane.inside() > 0 {
        return None;
    }
    floor.name(lane, clients[2], 1).ok()
}

/// Two lanes of a floor for at most 6 clients: the client with name 0, with name 1, and so on.
pub fn named_by_two(alloc: Global) -> Option<Vec<u64>> {
    let network = bitonic(alloc, 4).ok()?;
    let (floor, mut first) = Floor::open(alloc, &network, 6).ok()?;
    let mut second = floor.split_off(&mut first, 3).ok()?; // 3 of the 6 for a second thread
    name_three(&floor, &mut first, [17, 5, 99])?; // in one thread
    name_three(&floor, &mut second, [4, 8, 15])?; // in the other
    let Ok(lane) = floor.join(first, second) else {
        return None;
    };
    let Ok(quiet) = floor.close(lane) else {
        return None;
    };
    quiet.holders().ok()
}

/// The same by four workers with one client in hand each, if there is a list of clients beforehand.
pub fn named_by_workers(rt: &(impl Threads + Wait + Sync), alloc: Global) -> Option<Vec<u64>> {
    let network = bitonic(alloc, 4).ok()?;
    let clients = [Client { id: 17, entry: 3 }, Client { id: 5, entry: 0 }];
    let quiet = run_epoch(rt, alloc, &network, &clients, 4, 1, &OpenGate).ok()?;
    quiet.holders().ok()
}
