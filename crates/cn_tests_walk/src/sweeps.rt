//! The tokens of one wire go by its end in one step.

ghost use Rattle.std.specs.Prelude.{◌≡◌};

use crate::one_lane::step;
use crate::walks::{close, enter, open};
use cn_bitonic::bitonic;
use cn_floor::{Floor, Grant, Lane, Quiet, Sweep};
use cn_ledger::Moved;
use cn_wiring::Counting;
use std::alloc::Global;
use std::test::Fail;

/// What a lane is answered, and whether grants and counts are as they should be.
#[derive(Clone, Copy, Debug, PartialEq, Eq)]
struct Outcome {
    step: Option<Moved>,
    sweeps: [Option<Sweep>; 3],
    are_left: [bool; 2],
}

/// Sweeps a wire, if it is the lowest with a token.
fn sweep(floor: &Floor<'_>, lane: &mut Lane, wire: u32) -> Option<Sweep>
    requires { lane.old.home ≡ floor.now }
    ensures { lane.new.home ≡ lane.old.home }
{
    match lane.lowest() {
        Some(lowest) if lowest == wire => Some(floor.sweep(lane, lowest)),
        _ => None,
    }
}

/// Client 1 comes in by entry 1 and steps; 2, 3 and 4 come in by entry 0.
fn come_in(floor: &Floor<'_>, lane: &mut Lane) -> Option<Option<Moved>>
    requires { lane.old.home ≡ floor.now }
    ensures { lane.new.home ≡ lane.old.home }
{
    let token = enter(floor, lane, 1, 1).ok()?;
    let moved = step(floor, lane, token);
    enter(floor, lane, 2, 0).ok()?;
    enter(floor, lane, 3, 0).ok()?;
    enter(floor, lane, 4, 0).ok()?;
    Some(moved)
}

/// The grants of the four, in the order in which they leave.
const GRANTS: [Grant; 4] = [
    Grant {
        client: 1,
        exit: 0,
        visit: 0,
        name: 0,
    },
    Grant {
        client: 3,
        exit: 0,
        visit: 1,
        name: 2,
    },
    Grant {
        client: 2,
        exit: 1,
        visit: 0,
        name: 1,
    },
    Grant {
        client: 4,
        exit: 1,
        visit: 1,
        name: 3,
    },
];

/// Whether a closed floor has these grants, and two left by each exit.
fn are_left(quiet: &Quiet<'_>) -> [bool; 2] {
    [
        quiet.grants() == GRANTS.as_slice(),
        quiet.counts() == [2, 2].as_slice(),
    ]
}

fn ended(floor: Floor<'_>, lane: Lane) -> Option<[bool; 2]>
    requires { lane.home ≡ floor }
{
    match close(floor, lane) {
        Some(quiet) => Some(are_left(&quiet)),
        None => None,
    }
}

/// They come in, and the wires 0, 2 and 3 are swept.
fn swept(floor: Floor<'_>, mut lane: Lane) -> Option<Outcome>
    requires { lane.home ≡ floor }
{
    let step = come_in(&floor, &mut lane);
    let sweeps = [
        sweep(&floor, &mut lane, 0),
        sweep(&floor, &mut lane, 2),
        sweep(&floor, &mut lane, 3),
    ];
    let are_left = ended(floor, lane)?;
    Some(Outcome {
        step: step?,
        sweeps,
        are_left,
    })
}

/// The same, on a floor of its own.
fn four_clients(alloc: Global) -> Option<Outcome> {
    match bitonic(alloc, 2) {
        Ok(network) => four_on(alloc, &network),
        Err(_) => None,
    }
}

fn four_on(alloc: Global, network: &Counting) -> Option<Outcome> {
    match open(alloc, network, 4) {
        Some((floor, lane)) => swept(floor, lane),
        None => None,
    }
}

#[test]
fn bulk_pass(rt: HostRuntime) -> Result<(), Fail> {
    let wanted = Outcome {
        step: Some(Moved::On {
            balancer: 0,
            number: 0,
            wire: 2,
        }),
        sweeps: [
            Some(Sweep::On {
                balancer: 0,
                first: 1,
                tokens: 3,
            }),
            Some(Sweep::Out {
                exit: 0,
                first: 0,
                tokens: 2,
            }),
            Some(Sweep::Out {
                exit: 1,
                first: 0,
                tokens: 2,
            }),
        ],
        are_left: [true, true],
    };
    assert_eq!(rt; four_clients(rt.alloc()), Some(wanted));
    Ok(())
}
