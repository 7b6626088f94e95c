//! The widest networks, by four workers.

use crate::epochs::run;
use cn_bitonic::bitonic;
use cn_floor::{OpenGate, Quiet};
use cn_ledger::Client;
use cn_periodic::periodic;
use cn_wiring::{BuildFault, Counting};
use std::alloc::Global;
use std::sync::Wait;
use std::thread::Threads;

/// Clients from 0 to 1,023, each on the entry of its rule.
fn ruled_clients(alloc: Global) -> Option<Vec<Client>> {
    let mut clients = Vec::new(alloc);
    for id in 0..1_024 {
        let entry = id % 256;
        clients.push(Client { id, entry }).ok()?;
    }
    Some(clients)
}

/// Whether four left by each exit, and each client holds a name.
fn are_spread(quiet: &Quiet<'_>) -> [bool; 2] {
    let are_held = match quiet.holders() {
        Ok(mut holders) => holders.sort().is_ok() && holders.iter().copied().eq(0..1_024),
        Err(_) => false,
    };
    [quiet.counts() == [4; 256].as_slice(), are_held]
}

/// Runs them over a network.
fn spread<R: Threads + Wait + Sync>(
    rt: &R,
    alloc: Global,
    network: &Result<Counting, BuildFault>,
) -> Option<[bool; 2]> {
    let clients = ruled_clients(alloc)?;
    match network {
        Ok(network) => match run(rt, alloc, network, &clients, 4, 1, &OpenGate) {
            Ok(quiet) => Some(are_spread(&quiet)),
            Err(_) => None,
        },
        Err(_) => None,
    }
}

fn all_spread<R: Threads + Wait + Sync>(rt: &R, alloc: Global) -> [Option<[bool; 2]>; 2] {
    [
        spread(rt, alloc, &bitonic(alloc, 256)),
        spread(rt, alloc, &periodic(alloc, 256)),
    ]
}

#[test]
fn widest(rt: HostRuntime) {
    assert_eq!(rt;
        all_spread(&rt, rt.alloc()),
        [Some([true, true]), Some([true, true])]
    );
}
