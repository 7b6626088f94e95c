//! The core and epochs on the counting tree of width 4, on which a client overtakes two others.

use crate::calls::{Calls, answers_to, replies_to};
use crate::holders::has_holders;
use cn_core::{Core, Event};
use cn_epoch::Epochs;
use cn_ledger::{Answer, Command, EpochRecord, Moved, Reply};
use cn_tree::tree;
use cn_wiring::Counting;
use std::alloc::Global;
use std::hash::RandomState;
use std::test::Fail;

/// The clients enter one after another, and walk.
const EVENTS: [Event; 12] = [
    Event::Enter {
        client: 10,
        entry: 0,
    },
    Event::Enter {
        client: 20,
        entry: 0,
    },
    Event::Enter {
        client: 30,
        entry: 0,
    },
    Event::Step { client: 10 },
    Event::Step { client: 20 },
    Event::Step { client: 30 },
    Event::Step { client: 30 },
    Event::Step { client: 30 },
    Event::Step { client: 10 },
    Event::Step { client: 10 },
    Event::Step { client: 20 },
    Event::Step { client: 20 },
];

/// The reply to each.
const REPLIES: [Reply; 12] = [
    Reply::Entered,
    Reply::Entered,
    Reply::Entered,
    Reply::Stepped(Moved::On {
        balancer: 0,
        number: 0,
        wire: 1,
    }),
    Reply::Stepped(Moved::On {
        balancer: 0,
        number: 1,
        wire: 2,
    }),
    Reply::Stepped(Moved::On {
        balancer: 0,
        number: 2,
        wire: 1,
    }),
    Reply::Stepped(Moved::On {
        balancer: 1,
        number: 0,
        wire: 3,
    }),
    Reply::Stepped(Moved::Out {
        exit: 0,
        visit: 0,
        name: 0,
    }),
    Reply::Stepped(Moved::On {
        balancer: 1,
        number: 1,
        wire: 4,
    }),
    Reply::Stepped(Moved::Out {
        exit: 2,
        visit: 0,
        name: 2,
    }),
    Reply::Stepped(Moved::On {
        balancer: 2,
        number: 0,
        wire: 5,
    }),
    Reply::Stepped(Moved::Out {
        exit: 1,
        visit: 0,
        name: 1,
    }),
];

/// How many entered and are inside, and the names of the clients 10, 20, 30 and 40.
type Said = ([u64; 2], [Option<u64>; 4]);

fn said_by(core: &Core<'_>) -> Said {
    let names = [core.name(10), core.name(20), core.name(30), core.name(40)];
    ([core.entered(), core.inside()], names)
}

/// Whether a new core replies so, what it answers then, and whether the holders are 30, 20 and 10.
type Outcome = (bool, Said, bool);

fn outcome_of(core: &mut Core<'_>, alloc: Global, calls: Calls) -> Option<Outcome> {
    let replies = replies_to(core, alloc, &EVENTS, calls).ok()?;
    let are_replies = replies.as_slice() == REPLIES.as_slice();
    Some((are_replies, said_by(core), has_holders(core, &[30, 20, 10])))
}

fn outcome_on(
    alloc: Global,
    network: &Counting,
    state: RandomState,
    calls: Calls,
) -> Option<Outcome> {
    match Core::new(alloc, network, state) {
        Ok(mut core) => outcome_of(&mut core, alloc, calls),
        Err(_) => None,
    }
}

fn outcome(alloc: Global, state: RandomState, calls: Calls) -> Option<Outcome> {
    match tree(alloc, 4) {
        Ok(network) => outcome_on(alloc, &network, state, calls),
        Err(_) => None,
    }
}

#[test]
fn tree_overtaking_of_a_core(rt: HostRuntime) -> Result<(), Fail> {
    let (alloc, state) = (rt.alloc(), RandomState::new(&rt)?);
    let single = outcome(alloc, state, Calls::Single);
    let run = outcome(alloc, state, Calls::Run);
    let wanted = Some((true, ([3, 0], [Some(2), Some(1), Some(0), None]), true));
    assert_eq!(rt; [single, run], [wanted, wanted]);
    Ok(())
}

/// The clients enter and walk as above, and the epoch is turned; and all of this once more.
const COMMANDS: [Command; 26] = [
    Command::Enter {
        client: 10,
        entry: 0,
    },
    Command::Enter {
        client: 20,
        entry: 0,
    },
    Command::Enter {
        client: 30,
        entry: 0,
    },
    Command::Step { client: 10 },
    Command::Step { client: 20 },
    Command::Step { client: 30 },
    Command::Step { client: 30 },
    Command::Step { client: 30 },
    Command::Step { client: 10 },
    Command::Step { client: 10 },
    Command::Step { client: 20 },
    Command::Step { client: 20 },
    Command::Turn,
    Command::Enter {
        client: 10,
        entry: 0,
    },
    Command::Enter {
        client: 20,
        entry: 0,
    },
    Command::Enter {
        client: 30,
        entry: 0,
    },
    Command::Step { client: 10 },
    Command::Step { client: 20 },
    Command::Step { client: 30 },
    Command::Step { client: 30 },
    Command::Step { client: 30 },
    Command::Step { client: 10 },
    Command::Step { client: 10 },
    Command::Step { client: 20 },
    Command::Step { client: 20 },
    Command::Turn,
];

/// Whether this is the record of the epoch with this number.
fn is_ended(record: &EpochRecord, number: u64) -> bool {
    record.number == number
        && record.clients == 3
        && record.counts.as_slice() == [1, 1, 1, 0].as_slice()
        && record.holders.as_slice() == [30, 20, 10].as_slice()
}

/// Whether this is the answer at a place of the epoch with this number.
fn is_answer(answer: &Answer, number: u64, place: usize) -> bool {
    match (answer, REPLIES.get(place)) {
        (Answer::Replied(said), Some(reply)) => *said == *reply,
        (Answer::Turned(record), None) => is_ended(record, number),
        _ => false,
    }
}

/// The place of the first answer that is another.
fn wrong_answer(answers: &[Answer]) -> Option<usize> {
    for (place, answer) in answers.iter().enumerate() {
        if !is_answer(answer, place as u64 / 13, place % 13) {
            return Some(place);
        }
    }
    None
}

/// How many answers there are, the place of the first that is another, and how many epochs ended, and how many clients
/// entered and are inside.
type Answered = (usize, Option<usize>, [u64; 3]);

fn stand_of(epochs: &Epochs<'_>) -> [u64; 3] {
    [epochs.number(), epochs.entered(), epochs.inside()]
}

fn answered_by(epochs: &mut Epochs<'_>, alloc: Global, calls: Calls) -> Option<Answered> {
    let answers = answers_to(epochs, alloc, &COMMANDS, calls)?;
    Some((answers.len(), wrong_answer(&answers), stand_of(epochs)))
}

fn answered_on(
    alloc: Global,
    network: &Counting,
    state: RandomState,
    calls: Calls,
) -> Option<Answered> {
    match Epochs::new(alloc, network, state) {
        Ok(mut epochs) => answered_by(&mut epochs, alloc, calls),
        Err(_) => None,
    }
}

fn answered(alloc: Global, state: RandomState, calls: Calls) -> Option<Answered> {
    match tree(alloc, 4) {
        Ok(network) => answered_on(alloc, &network, state, calls),
        Err(_) => None,
    }
}

#[test]
fn tree_overtaking_then_turn(rt: HostRuntime) -> Result<(), Fail> {
    let (alloc, state) = (rt.alloc(), RandomState::new(&rt)?);
    let single = answered(alloc, state, Calls::Single);
    let run = answered(alloc, state, Calls::Run);
    let wanted = Some((26, None, [2, 0, 0]));
    assert_eq!(rt; [single, run], [wanted, wanted]);
    Ok(())
}
