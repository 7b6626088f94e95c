//! One client in two epochs, one after the other, whose counts are carried on or cleared, on the bitonic network of
//! width 2.

ghost use Rattle.std.specs.Prelude.{◌≡◌, ◌+◌, length};
ghost use Rattle.cn_core.specs.State.{inside_in};

use crate::calls::{Calls, answers_to};
use crate::holders::clear;
use cn_bitonic::bitonic;
use cn_core::{Core, Event};
use cn_epoch::Epochs;
use cn_ledger::{Answer, Command, EpochRecord, Moved, Reply};
use cn_wiring::Counting;
use std::alloc::Global;
use std::hash::RandomState;
use std::test::Fail;

/// Client 7 enters, passes the balancer, leaves, and the epoch ends; and the same again.
const COMMANDS: [Command; 8] = [
    Command::Enter {
        client: 7,
        entry: 0,
    },
    Command::Step { client: 7 },
    Command::Step { client: 7 },
    Command::Turn,
    Command::Enter {
        client: 7,
        entry: 0,
    },
    Command::Step { client: 7 },
    Command::Step { client: 7 },
    Command::Turn,
];

/// An answer in numbers: the wire and number of a passage, the exit, visit and name of a leave, the number and the two
/// counts of a record with only client 7.
#[derive(Clone, Copy, Debug, PartialEq, Eq)]
enum Said {
    Entered,
    Passed(u32, u64),
    Left(u32, u64, u64),
    Ended(u64, u64, u64),
    Other,
}

fn said_of_move(moved: Moved) -> Said {
    match moved {
        Moved::On {
            balancer: 0,
            number,
            wire,
        } => Said::Passed(wire, number),
        Moved::On { .. } => Said::Other,
        Moved::Out { exit, visit, name } => Said::Left(exit, visit, name),
    }
}

fn said_of_record(record: &EpochRecord) -> Said {
    match (record.counts.as_slice(), record.holders.as_slice()) {
        ([first, second], [7]) if record.clients == 1 => {
            Said::Ended(record.number, *first, *second)
        }
        _ => Said::Other,
    }
}

fn said_of(answer: &Answer) -> Said {
    match answer {
        Answer::Replied(Reply::Entered) => Said::Entered,
        Answer::Replied(Reply::Stepped(moved)) => said_of_move(*moved),
        Answer::Turned(record) => said_of_record(record),
        _ => Said::Other,
    }
}

/// Each answer of each epoch in numbers, and how many epochs ended and how many clients are carried then.
type Outcome = ([[Said; 4]; 2], [u64; 2]);

fn all_said(answers: &[Answer]) -> [[Said; 4]; 2] {
    let mut said = [[Said::Other; 4]; 2];
    for (place, answer) in answers.iter().enumerate() {
        if place < 8 {
            said[place / 4][place % 4] = said_of(answer);
        }
    }
    said
}

fn outcome_by(epochs: &mut Epochs<'_>, alloc: Global, calls: Calls) -> Option<Outcome> {
    let answers = answers_to(epochs, alloc, &COMMANDS, calls)?;
    Some((all_said(&answers), [epochs.number(), epochs.base()]))
}

/// Those of epochs that carry their counts on, or clear them.
fn outcome_on(
    alloc: Global,
    network: &Counting,
    state: RandomState,
    carries: bool,
    calls: Calls,
) -> Option<Outcome> {
    let epochs = if carries {
        Epochs::carrying(alloc, network, state)
    } else {
        Epochs::new(alloc, network, state)
    };
    match epochs {
        Ok(mut epochs) => outcome_by(&mut epochs, alloc, calls),
        Err(_) => None,
    }
}

fn outcome(alloc: Global, state: RandomState, carries: bool, calls: Calls) -> Option<Outcome> {
    match bitonic(alloc, 2) {
        Ok(network) => outcome_on(alloc, &network, state, carries, calls),
        Err(_) => None,
    }
}

const FIRST: [Said; 4] = [
    Said::Entered,
    Said::Passed(2, 0),
    Said::Left(0, 0, 0),
    Said::Ended(0, 1, 0),
];

const CARRIED: [Said; 4] = [
    Said::Entered,
    Said::Passed(3, 1),
    Said::Left(1, 0, 0),
    Said::Ended(1, 0, 1),
];

const CLEARED: [Said; 4] = [
    Said::Entered,
    Said::Passed(2, 0),
    Said::Left(0, 0, 0),
    Said::Ended(1, 1, 0),
];

/// By single calls and by a run.
fn by_both(alloc: Global, state: RandomState, carries: bool) -> [Option<Outcome>; 2] {
    [
        outcome(alloc, state, carries, Calls::Single),
        outcome(alloc, state, carries, Calls::Run),
    ]
}

#[test]
fn carried_twice_and_cleared_twice(rt: HostRuntime) -> Result<(), Fail> {
    let (alloc, state) = (rt.alloc(), RandomState::new(&rt)?);
    let found = [by_both(alloc, state, true), by_both(alloc, state, false)];
    let wanted = [([FIRST, CARRIED], [2, 2]), ([FIRST, CLEARED], [2, 0])];
    assert_eq!(rt; found, wanted.map(|outcome| [Some(outcome); 2]));
    Ok(())
}

/// The greatest number of clients that may be carried is accepted. No test has so many clients: this is proved.
fn carry_the_most(core: &mut Core<'_>)
    requires quiet { inside_in core.old ≡ 0 }
    requires most { core.old.base + length core.old.clients ≡ 2147483648 }
    ensures { core.new.base ≡ 2147483648 }
{
    core.carry();
}

/// The counts of the balancer and of the exits of a core on a network that has these.
fn counts_of(core: &Core<'_>, network: &Counting) -> Option<[u64; 3]>
    requires { core.now.network ≡ network.now }
{
    if network.balancers() == 1 && network.width() == 2 {
        let exits = [core.exit_count(0), core.exit_count(1)];
        Some([core.balancer_count(0), exits[0], exits[1]])
    } else {
        None
    }
}

/// Carries on, if nobody is inside and few came.
fn carry(core: &mut Core<'_>) -> Option<()>
    ensures { core.new.network ≡ core.old.network }
{
    core.state_laws();
    if core.inside() > 0 || core.base() > 1_000_000 {
        return None;
    }
    core.carry();
    Some(())
}

/// How many are carried and entered, the name of client 7, and the counts.
type Stand = ([u64; 2], Option<u64>, Option<[u64; 3]>);

fn stand_of(core: &Core<'_>, network: &Counting) -> Stand
    requires { core.now.network ≡ network.now }
{
    (
        [core.base(), core.entered()],
        core.name(7),
        counts_of(core, network),
    )
}

/// Client 7 comes in and leaves.
const EVENTS: [Event; 3] = [
    Event::Enter {
        client: 7,
        entry: 0,
    },
    Event::Step { client: 7 },
    Event::Step { client: 7 },
];

/// How a core stands once the counts of an epoch are carried on, after the next epoch, and once it is cleared.
fn stands_of(core: &mut Core<'_>, network: &Counting) -> Option<[Stand; 3]>
    requires { core.old.network ≡ network.now }
{
    if core.run(&EVENTS).is_err() {
        return None;
    }
    carry(core)?;
    let carried = stand_of(core, network);
    if core.run(&EVENTS).is_err() {
        return None;
    }
    let after = stand_of(core, network);
    clear(core)?;
    Some([carried, after, stand_of(core, network)])
}

fn stands_on(alloc: Global, network: &Counting, state: RandomState) -> Option<[Stand; 3]> {
    match Core::new(alloc, network, state) {
        Ok(mut core) => stands_of(&mut core, network),
        Err(_) => None,
    }
}

fn stands(alloc: Global, state: RandomState) -> Option<[Stand; 3]> {
    match bitonic(alloc, 2) {
        Ok(network) => stands_on(alloc, &network, state),
        Err(_) => None,
    }
}

const STANDS: [Stand; 3] = [
    ([1, 0], None, Some([1, 1, 0])),
    ([1, 1], Some(0), Some([2, 1, 1])),
    ([0, 0], None, Some([0, 0, 0])),
];

#[test]
fn counts_go_on_until_they_are_cleared(rt: HostRuntime) -> Result<(), Fail> {
    let found = stands(rt.alloc(), RandomState::new(&rt)?);
    assert_eq!(rt; found, Some(STANDS));
    Ok(())
}
