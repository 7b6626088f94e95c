//! Lists of some thousand clients, the greatest number among them, each walking on by itself.

use crate::calls::{Calls, answers_to};
use crate::holders::has_holders;
use cn_core::{Core, Event};
use cn_epoch::Epochs;
use cn_ledger::{Answer, Command, EpochRecord};
use cn_tree::tree;
use cn_wiring::Counting;
use std::alloc::{AllocError, Global};
use std::hash::RandomState;
use std::test::Fail;

const MANY: u64 = 3_000;

/// The clients, from 2^64 - 1 down.
fn clients(alloc: Global) -> Result<Vec<u64>, AllocError> {
    (0..MANY).map(|place| u64::MAX - place).collect(alloc)
}

/// All enter, and then one after another takes its three steps: the n-th gets name n.
fn events(alloc: Global, clients: &[u64]) -> Result<Vec<Event>, AllocError> {
    let mut events = Vec::new(alloc);
    for client in clients {
        events.push(Event::Enter {
            client: *client,
            entry: 0,
        })?;
    }
    for client in clients {
        for _ in 0..3 {
            events.push(Event::Step { client: *client })?;
        }
    }
    Ok(events)
}

/// How many replies there were, how many clients entered, the first client's name, and whether the holders are the
/// clients.
type Outcome = (usize, u64, Option<u64>, bool);

fn outcome_by(core: &mut Core<'_>, events: &[Event], clients: &[u64]) -> Option<Outcome> {
    let replies = core.run(events).ok()?.len();
    let are_holders = has_holders(core, clients);
    Some((replies, core.entered(), core.name(u64::MAX), are_holders))
}

fn outcome_on(
    alloc: Global,
    network: &Counting,
    state: RandomState,
    events: &[Event],
    clients: &[u64],
) -> Option<Outcome> {
    match Core::new(alloc, network, state) {
        Ok(mut core) => outcome_by(&mut core, events, clients),
        Err(_) => None,
    }
}

fn outcome_of(
    alloc: Global,
    state: RandomState,
    events: &[Event],
    clients: &[u64],
) -> Option<Outcome> {
    match tree(alloc, 4) {
        Ok(network) => outcome_on(alloc, &network, state, events, clients),
        Err(_) => None,
    }
}

fn outcome_of_many(alloc: Global, state: RandomState) -> Option<Outcome> {
    let clients = clients(alloc).ok()?;
    let events = events(alloc, &clients).ok()?;
    outcome_of(alloc, state, &events, &clients)
}

#[test]
fn a_core_of_many(rt: HostRuntime) -> Result<(), Fail> {
    let outcome = outcome_of_many(rt.alloc(), RandomState::new(&rt)?);
    assert_eq!(rt; outcome, Some((12_000, 3_000, Some(0), true)));
    Ok(())
}

/// The events as commands, and a turn.
fn commands(alloc: Global, events: &[Event]) -> Result<Vec<Command>, AllocError> {
    let mut commands = Vec::new(alloc);
    for event in events {
        commands.push(match event {
            Event::Enter { client, entry } => Command::Enter {
                client: *client,
                entry: *entry,
            },
            Event::Step { client } => Command::Step { client: *client },
        })?;
    }
    commands.push(Command::Turn)?;
    Ok(commands)
}

/// Whether there are answers, and the last is that of a turn after all clients.
fn are_ended(answers: Option<Vec<Answer>>, clients: &[u64]) -> bool {
    match answers {
        Some(answers) => is_ended(answers.last(), clients),
        None => false,
    }
}

/// Whether an answer is there, and is that of a turn after all clients.
fn is_ended(answer: Option<&Answer>, clients: &[u64]) -> bool {
    match answer {
        Some(Answer::Turned(record)) => is_of_all(record, clients),
        _ => false,
    }
}

/// Whether the record is that of the first epoch, with all clients, each by its name.
fn is_of_all(record: &EpochRecord, clients: &[u64]) -> bool {
    record.number == 0
        && record.clients == MANY
        && record.counts.as_slice() == [750; 4].as_slice()
        && record.holders.as_slice() == clients
}

fn answers_on(
    alloc: Global,
    network: &Counting,
    state: RandomState,
    commands: &[Command],
    calls: Calls,
) -> Option<Vec<Answer>> {
    match Epochs::new(alloc, network, state) {
        Ok(mut epochs) => answers_to(&mut epochs, alloc, commands, calls),
        Err(_) => None,
    }
}

fn answers_of(
    alloc: Global,
    state: RandomState,
    commands: &[Command],
    calls: Calls,
) -> Option<Vec<Answer>> {
    match tree(alloc, 4) {
        Ok(network) => answers_on(alloc, &network, state, commands, calls),
        Err(_) => None,
    }
}

fn all_commands(alloc: Global, clients: &[u64]) -> Option<Vec<Command>> {
    let events = events(alloc, clients).ok()?;
    commands(alloc, &events).ok()
}

/// Whether single calls and a run end with the record of all clients.
fn both_end(alloc: Global, state: RandomState) -> Option<[bool; 2]> {
    let clients = clients(alloc).ok()?;
    let commands = all_commands(alloc, &clients)?;
    let single = answers_of(alloc, state, &commands, Calls::Single);
    let run = answers_of(alloc, state, &commands, Calls::Run);
    Some([are_ended(single, &clients), are_ended(run, &clients)])
}

#[test]
fn an_epoch_of_many(rt: HostRuntime) -> Result<(), Fail> {
    let ends = both_end(rt.alloc(), RandomState::new(&rt)?);
    assert_eq!(rt; ends, Some([true, true]));
    Ok(())
}
