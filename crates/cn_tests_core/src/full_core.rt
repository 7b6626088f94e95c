//! A core that is full.

use cn_core::Core;
use cn_ledger::EnterFault;
use cn_tree::tree;
use cn_wiring::Counting;
use std::alloc::Global;
use std::hash::RandomState;
use std::test::Fail;

/// Why a client is not let in, if it is not.
fn refusal(core: &mut Core<'_>, client: u64, entry: u64) -> Option<EnterFault> {
    core.enter(client, entry).err()
}

/// Whether as many clients enter as can.
fn is_filled(core: &mut Core<'_>) -> bool {
    for client in 0..262_144 {
        if refusal(core, client, 0).is_some() {
            return false;
        }
    }
    true
}

/// Whether a core is full, and how it refuses another client at an entry and at none, and one that has entered.
type Full = (bool, [Option<EnterFault>; 3]);

fn full(core: &mut Core<'_>) -> Full {
    let is_filled = is_filled(core);
    let refused = [
        refusal(core, 262_144, 0),
        refusal(core, 262_144, 1),
        refusal(core, 0, 0),
    ];
    (is_filled, refused)
}

fn full_on(alloc: Global, network: &Counting, state: RandomState) -> Option<Full> {
    match Core::new(alloc, network, state) {
        Ok(mut core) => Some(full(&mut core)),
        Err(_) => None,
    }
}

fn full_tree(alloc: Global, state: RandomState) -> Option<Full> {
    match tree(alloc, 64) {
        Ok(network) => full_on(alloc, &network, state),
        Err(_) => None,
    }
}

const FAULTS: [Option<EnterFault>; 3] = [
    Some(EnterFault::EpochFull),
    Some(EnterFault::NoSuchEntry),
    Some(EnterFault::AlreadyIn),
];

#[test]
fn core_at_its_limit(rt: HostRuntime) -> Result<(), Fail> {
    let found = full_tree(rt.alloc(), RandomState::new(&rt)?);
    assert_eq!(rt; found, Some((true, FAULTS)));
    Ok(())
}
