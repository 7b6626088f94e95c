//! An epoch of 65,536 clients on the tree of width 64, walked out from the client that came last down to the first.

use crate::holders::has_holders;
use cn_core::{Core, Event};
use cn_ledger::{Moved, Reply};
use cn_tree::tree;
use cn_wiring::Counting;
use std::alloc::{AllocError, Global};
use std::hash::RandomState;
use std::test::Fail;

const CLIENTS: u64 = 65_536;

/// The clients, from the last to come to the first.
fn from_last(alloc: Global) -> Result<Vec<u64>, AllocError> {
    (0..CLIENTS).rev().collect(alloc)
}

/// All enter in order, and then each, from the last to the first, takes its seven steps.
fn events(alloc: Global, from_last: &[u64]) -> Result<Vec<Event>, AllocError> {
    let mut events = Vec::new(alloc);
    for client in 0..CLIENTS {
        events.push(Event::Enter { client, entry: 0 })?;
    }
    for client in from_last {
        for _ in 0..7 {
            events.push(Event::Step { client: *client })?;
        }
    }
    Ok(events)
}

/// How many left by each exit.
fn exits(alloc: Global, replies: &[Reply]) -> Result<Vec<u64>, AllocError> {
    let mut counts = vec![in alloc; 0u64; 64]?;
    for reply in replies {
        if let Reply::Stepped(Moved::Out { exit, .. }) = *reply {
            if let Some(count) = counts.get_mut(exit as usize) {
                *count = count.saturating_add(1);
            }
        }
    }
    Ok(counts)
}

/// Whether 1,024 left by each.
fn is_even(exits: &[u64]) -> bool {
    exits.iter().all(|count| *count == 1_024)
}

/// Whether events were run, and 1,024 left by each exit.
fn leave_evenly(alloc: Global, replies: Result<Vec<Reply>, AllocError>) -> bool {
    match replies.and_then(|replies| exits(alloc, &replies)) {
        Ok(exits) => is_even(&exits),
        Err(_) => false,
    }
}

/// Whether the clients hold the names 0 to 65,535 from the last to the first, and whether 1,024 left by each exit.
type Outcome = (bool, bool);

fn outcome_by(core: &mut Core<'_>, alloc: Global, events: &[Event], from_last: &[u64]) -> Outcome {
    let leave_evenly = leave_evenly(alloc, core.run(events));
    (has_holders(core, from_last), leave_evenly)
}

fn outcome_on(
    alloc: Global,
    network: &Counting,
    state: RandomState,
    events: &[Event],
    from_last: &[u64],
) -> Option<Outcome> {
    match Core::new(alloc, network, state) {
        Ok(mut core) => Some(outcome_by(&mut core, alloc, events, from_last)),
        Err(_) => None,
    }
}

fn outcome_of(
    alloc: Global,
    state: RandomState,
    events: &[Event],
    from_last: &[u64],
) -> Option<Outcome> {
    match tree(alloc, 64) {
        Ok(network) => outcome_on(alloc, &network, state, events, from_last),
        Err(_) => None,
    }
}

/// Those of a new core.
fn outcome(alloc: Global, state: RandomState) -> Option<Outcome> {
    let from_last = from_last(alloc).ok()?;
    let events = events(alloc, &from_last).ok()?;
    outcome_of(alloc, state, &events, &from_last)
}

#[test]
fn reverse_walkout(rt: HostRuntime) -> Result<(), Fail> {
    let outcome = outcome(rt.alloc(), RandomState::new(&rt)?);
    assert_eq!(rt; outcome, Some((true, true)));
    Ok(())
}
