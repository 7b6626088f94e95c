//! The core on the bitonic network of width 2.

ghost use Rattle.std.specs.Prelude.{◌≡◌};

use crate::calls::{Calls, replies_to};
use cn_bitonic::bitonic;
use cn_core::{Core, Event};
use cn_ledger::{EnterFault, Moved, Reply, StepFault};
use cn_wiring::Counting;
use std::alloc::Global;
use std::hash::RandomState;
use std::test::Fail;

/// The counts of the one balancer and of both exits, on a network that has these.
fn counts_of(core: &Core<'_>, network: &Counting) -> Option<(u64, u64, u64)>
    requires { core.now.network ≡ network.now }
{
    if network.balancers() == 1 && network.width() == 2 {
        Some((
            core.balancer_count(0),
            core.exit_count(0),
            core.exit_count(1),
        ))
    } else {
        None
    }
}

/// What a core on one balancer answers: how many entered, how many are inside and whether that is nobody; the counts of
/// the balancer and of the exits; and the names of clients 7 and 9.
pub(crate) type Said = (
    (u64, u64, bool),
    Option<(u64, u64, u64)>,
    (Option<u64>, Option<u64>),
);

/// What a core answers, on a network that may have other balancers and exits.
pub(crate) fn said_by(core: &Core<'_>, network: &Counting) -> Said
    requires { core.now.network ≡ network.now }
{
    (
        (core.entered(), core.inside(), core.is_quiet()),
        counts_of(core, network),
        (core.name(7), core.name(9)),
    )
}

/// The replies of a core to events, and what it answers then.
type Outcome = (Vec<Reply>, Said);

fn outcome_by(
    core: &mut Core<'_>,
    network: &Counting,
    alloc: Global,
    events: &[Event],
    calls: Calls,
) -> Option<Outcome>
    requires { core.old.network ≡ network.now }
{
    let replies = replies_to(core, alloc, events, calls).ok()?;
    Some((replies, said_by(core, network)))
}

fn outcome_on(
    alloc: Global,
    network: &Counting,
    state: RandomState,
    events: &[Event],
    calls: Calls,
) -> Option<Outcome> {
    match Core::new(alloc, network, state) {
        Ok(mut core) => outcome_by(&mut core, network, alloc, events, calls),
        Err(_) => None,
    }
}

/// Those of a new core.
fn outcome_of(
    alloc: Global,
    state: RandomState,
    events: &[Event],
    calls: Calls,
) -> Option<Outcome> {
    match bitonic(alloc, 2) {
        Ok(network) => outcome_on(alloc, &network, state, events, calls),
        Err(_) => None,
    }
}

pub(crate) const TWO_CLIENTS: [Event; 6] = [
    Event::Enter {
        client: 7,
        entry: 0,
    },
    Event::Enter {
        client: 9,
        entry: 1,
    },
    Event::Step { client: 9 },
    Event::Step { client: 7 },
    Event::Step { client: 9 },
    Event::Step { client: 7 },
];

pub(crate) const TWO_CLIENTS_REPLIES: [Reply; 6] = [
    Reply::Entered,
    Reply::Entered,
    Reply::Stepped(Moved::On {
        balancer: 0,
        number: 0,
        wire: 2,
    }),
    Reply::Stepped(Moved::On {
        balancer: 0,
        number: 1,
        wire: 3,
    }),
    Reply::Stepped(Moved::Out {
        exit: 0,
        visit: 0,
        name: 0,
    }),
    Reply::Stepped(Moved::Out {
        exit: 1,
        visit: 0,
        name: 1,
    }),
];

const REFUSALS: [Event; 8] = [
    Event::Step { client: 5 },
    Event::Enter {
        client: 7,
        entry: 0,
    },
    Event::Enter {
        client: 7,
        entry: 1,
    },
    Event::Enter {
        client: 7,
        entry: 2,
    },
    Event::Step { client: 7 },
    Event::Step { client: 7 },
    Event::Step { client: 7 },
    Event::Enter {
        client: 7,
        entry: 0,
    },
];

const REFUSALS_REPLIES: [Reply; 8] = [
    Reply::StepRefused(StepFault::Stranger),
    Reply::Entered,
    Reply::EnterRefused(EnterFault::AlreadyIn),
    Reply::EnterRefused(EnterFault::NoSuchEntry),
    Reply::Stepped(Moved::On {
        balancer: 0,
        number: 0,
        wire: 2,
    }),
    Reply::Stepped(Moved::Out {
        exit: 0,
        visit: 0,
        name: 0,
    }),
    Reply::StepRefused(StepFault::HasName(0)),
    Reply::EnterRefused(EnterFault::AlreadyIn),
];

/// Events by one kind of calls, the replies to them, and what the core answers then.
type Row = (Calls, &'static [Event], &'static [Reply], Said);

const ROWS: [Row; 4] = [
    (
        Calls::Single,
        &TWO_CLIENTS,
        &TWO_CLIENTS_REPLIES,
        ((2, 0, true), Some((2, 1, 1)), (Some(1), Some(0))),
    ),
    (
        Calls::Run,
        &TWO_CLIENTS,
        &TWO_CLIENTS_REPLIES,
        ((2, 0, true), Some((2, 1, 1)), (Some(1), Some(0))),
    ),
    (
        Calls::Single,
        &REFUSALS,
        &REFUSALS_REPLIES,
        ((1, 0, true), Some((1, 1, 0)), (Some(0), None)),
    ),
    (
        Calls::Run,
        &REFUSALS,
        &REFUSALS_REPLIES,
        ((1, 0, true), Some((1, 1, 0)), (Some(0), None)),
    ),
];

/// Whether a new core replies so, and answers this then.
fn has_outcome(alloc: Global, state: RandomState, row: &Row) -> bool {
    let (calls, events, wanted, wanted_said) = *row;
    match outcome_of(alloc, state, events, calls) {
        Some((replies, said)) => replies.as_slice() == wanted && said == wanted_said,
        None => false,
    }
}

/// The place of the first row that has another outcome.
fn wrong_row(alloc: Global, state: RandomState) -> Option<usize> {
    for (place, row) in ROWS.iter().enumerate() {
        if !has_outcome(alloc, state, row) {
            return Some(place);
        }
    }
    None
}

#[test]
fn two_clients_and_refusals_without_turn(rt: HostRuntime) -> Result<(), Fail> {
    let wrong = wrong_row(rt.alloc(), RandomState::new(&rt)?);
    assert_eq!(rt; wrong, None);
    Ok(())
}

/// What a new core answers after events.
fn said_after(alloc: Global, state: RandomState, events: &[Event]) -> Option<Said> {
    let (_, said) = outcome_of(alloc, state, events, Calls::Run)?;
    Some(said)
}

const ONE_INSIDE: Said = ((2, 1, false), Some((2, 1, 0)), (None, Some(0)));

#[test]
fn one_client_is_still_inside(rt: HostRuntime) -> Result<(), Fail> {
    let said = said_after(rt.alloc(), RandomState::new(&rt)?, &TWO_CLIENTS[..5]);
    assert_eq!(rt; said, Some(ONE_INSIDE));
    Ok(())
}
