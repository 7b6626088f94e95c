//! Epochs by their single calls and by runs of commands, on the bitonic network of width 2.

use crate::calls::{Calls, answers_to};
use cn_bitonic::bitonic;
use cn_epoch::Epochs;
use cn_ledger::{Answer, Command, EnterFault, EpochRecord, Moved, Reply, StepFault, TurnFault};
use cn_wiring::Counting;
use std::alloc::Global;
use std::hash::RandomState;
use std::test::Fail;

/// What epochs answered, and how they stand after it: how many ended, and how many clients entered and are inside.
type Outcome = (Vec<Answer>, [u64; 3]);

fn outcome_by(
    epochs: &mut Epochs<'_>,
    alloc: Global,
    commands: &[Command],
    calls: Calls,
) -> Option<Outcome> {
    let answers = answers_to(epochs, alloc, commands, calls)?;
    let stand = [epochs.number(), epochs.entered(), epochs.inside()];
    Some((answers, stand))
}

fn outcome_on(
    alloc: Global,
    network: &Counting,
    state: RandomState,
    commands: &[Command],
    calls: Calls,
) -> Option<Outcome> {
    match Epochs::new(alloc, network, state) {
        Ok(mut epochs) => outcome_by(&mut epochs, alloc, commands, calls),
        Err(_) => None,
    }
}

fn outcome_of(
    alloc: Global,
    state: RandomState,
    commands: &[Command],
    calls: Calls,
) -> Option<Outcome> {
    match bitonic(alloc, 2) {
        Ok(network) => outcome_on(alloc, &network, state, commands, calls),
        Err(_) => None,
    }
}

/// An answer as it should be.
#[derive(Clone, Copy)]
enum Wanted {
    Replied(Reply),
    TurnRefused(TurnFault),
    /// The record of an epoch with only client 7.
    Alone,
}

/// Whether the record is that of the first epoch, with only client 7, which left by exit 0.
fn is_alone(record: &EpochRecord) -> bool {
    record.number == 0
        && record.clients == 1
        && record.counts.as_slice() == [1, 0].as_slice()
        && record.holders.as_slice() == [7].as_slice()
}

fn is_answer(answer: &Answer, wanted: &Wanted) -> bool {
    match (answer, wanted) {
        (Answer::Replied(said), Wanted::Replied(reply)) => *said == *reply,
        (Answer::TurnRefused(said), Wanted::TurnRefused(fault)) => *said == *fault,
        (Answer::Turned(record), Wanted::Alone) => is_alone(record),
        _ => false,
    }
}

fn are_answers(answers: &[Answer], wanted: &[Wanted]) -> bool {
    if answers.len() != wanted.len() {
        return false;
    }
    for place in 0..wanted.len() {
        if !is_answer(&answers[place], &wanted[place]) {
            return false;
        }
    }
    true
}

/// Whether epochs answer so, and how they stand after it.
fn seen_after(
    alloc: Global,
    state: RandomState,
    commands: &[Command],
    calls: Calls,
    wanted: &[Wanted],
) -> Option<(bool, [u64; 3])> {
    let (answers, stand) = outcome_of(alloc, state, commands, calls)?;
    Some((are_answers(&answers, wanted), stand))
}

/// The same by single calls and by a run.
fn seen_by_both(
    alloc: Global,
    state: RandomState,
    commands: &[Command],
    wanted: &[Wanted],
) -> [Option<(bool, [u64; 3])>; 2] {
    [
        seen_after(alloc, state, commands, Calls::Single, wanted),
        seen_after(alloc, state, commands, Calls::Run, wanted),
    ]
}

/// Client 7 passes the balancer.
const PASSED: Wanted = Wanted::Replied(Reply::Stepped(Moved::On {
    balancer: 0,
    number: 0,
    wire: 2,
}));

/// Client 7 leaves with name 0.
const LEFT: Wanted = Wanted::Replied(Reply::Stepped(Moved::Out {
    exit: 0,
    visit: 0,
    name: 0,
}));

/// A turn while client 7 is inside, and one when it has left; and then client 7 again, which is a stranger to the new
/// epoch until it enters.
const TURNS: [Command; 7] = [
    Command::Enter {
        client: 7,
        entry: 0,
    },
    Command::Turn,
    Command::Step { client: 7 },
    Command::Step { client: 7 },
    Command::Turn,
    Command::Step { client: 7 },
    Command::Enter {
        client: 7,
        entry: 1,
    },
];

const TURNS_ANSWERED: [Wanted; 7] = [
    Wanted::Replied(Reply::Entered),
    Wanted::TurnRefused(TurnFault::NotQuiet(1)),
    PASSED,
    LEFT,
    Wanted::Alone,
    Wanted::Replied(Reply::StepRefused(StepFault::Stranger)),
    Wanted::Replied(Reply::Entered),
];

#[test]
fn turn_is_refused_then_done(rt: HostRuntime) -> Result<(), Fail> {
    let (alloc, state) = (rt.alloc(), RandomState::new(&rt)?);
    let seen = seen_by_both(alloc, state, &TURNS[..5], &TURNS_ANSWERED[..5]);
    let wanted = Some((true, [1, 0, 0]));
    assert_eq!(rt; seen, [wanted, wanted]);
    Ok(())
}

/// Whether epochs answer so many of the commands so, and how they stand then.
fn seen_after_some(alloc: Global, state: RandomState, calls: usize) -> Option<(bool, [u64; 3])> {
    let commands = TURNS.get(..calls)?;
    let wanted = TURNS_ANSWERED.get(..calls)?;
    seen_after(alloc, state, commands, Calls::Single, wanted)
}

#[test]
fn a_client_comes_again_after_a_turn(rt: HostRuntime) -> Result<(), Fail> {
    let (alloc, state) = (rt.alloc(), RandomState::new(&rt)?);
    let seen = [
        seen_after_some(alloc, state, 4),
        seen_after_some(alloc, state, 5),
        seen_after_some(alloc, state, 7),
    ];
    let wanted = [[0, 1, 0], [1, 0, 0], [1, 1, 1]].map(|stand| Some((true, stand)));
    assert_eq!(rt; seen, wanted);
    Ok(())
}

/// Each command that a core of two entries refuses, a turn, and the client again.
const REFUSALS: [Command; 10] = [
    Command::Step { client: 5 },
    Command::Enter {
        client: 7,
        entry: 0,
    },
    Command::Enter {
        client: 7,
        entry: 1,
    },
    Command::Enter {
        client: 7,
        entry: 2,
    },
    Command::Step { client: 7 },
    Command::Step { client: 7 },
    Command::Step { client: 7 },
    Command::Enter {
        client: 7,
        entry: 0,
    },
    Command::Turn,
    Command::Enter {
        client: 7,
        entry: 0,
    },
];

const REFUSALS_ANSWERED: [Wanted; 10] = [
    Wanted::Replied(Reply::StepRefused(StepFault::Stranger)),
    Wanted::Replied(Reply::Entered),
    Wanted::Replied(Reply::EnterRefused(EnterFault::AlreadyIn)),
    Wanted::Replied(Reply::EnterRefused(EnterFault::NoSuchEntry)),
    PASSED,
    LEFT,
    Wanted::Replied(Reply::StepRefused(StepFault::HasName(0))),
    Wanted::Replied(Reply::EnterRefused(EnterFault::AlreadyIn)),
    Wanted::Alone,
    Wanted::Replied(Reply::Entered),
];

#[test]
fn every_refusal_then_turn(rt: HostRuntime) -> Result<(), Fail> {
    let (alloc, state) = (rt.alloc(), RandomState::new(&rt)?);
    let seen = seen_by_both(alloc, state, &REFUSALS, &REFUSALS_ANSWERED);
    let wanted = Some((true, [1, 1, 1]));
    assert_eq!(rt; seen, [wanted, wanted]);
    Ok(())
}
