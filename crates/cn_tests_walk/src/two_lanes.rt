//! Two lanes of one floor: a client of the second overtakes two of the first.

ghost use Rattle.std.specs.Prelude.{◌≡◌};

use crate::one_lane::step;
use crate::walks::{close, enter, entered, join, open, split};
use cn_floor::{Floor, Grant, Lane, Quiet};
use cn_ledger::Moved;
use cn_tree::tree;
use cn_yard::Token;
use std::alloc::Global;
use std::test::Fail;

/// Where the first steps of 10, 20 and 30 lead, and then the last two of 30, of 10 and of 20.
type Moves = ([Option<Moved>; 3], [[Option<Moved>; 2]; 3]);

const OVERTAKING: Moves = (
    [
        Some(Moved::On {
            balancer: 0,
            number: 0,
            wire: 1,
        }),
        Some(Moved::On {
            balancer: 0,
            number: 1,
            wire: 2,
        }),
        Some(Moved::On {
            balancer: 0,
            number: 2,
            wire: 1,
        }),
    ],
    [
        [
            Some(Moved::On {
                balancer: 1,
                number: 0,
                wire: 3,
            }),
            Some(Moved::Out {
                exit: 0,
                visit: 0,
                name: 0,
            }),
        ],
        [
            Some(Moved::On {
                balancer: 1,
                number: 1,
                wire: 4,
            }),
            Some(Moved::Out {
                exit: 2,
                visit: 0,
                name: 2,
            }),
        ],
        [
            Some(Moved::On {
                balancer: 2,
                number: 0,
                wire: 5,
            }),
            Some(Moved::Out {
                exit: 1,
                visit: 0,
                name: 1,
            }),
        ],
    ],
);

/// The grants of the lane that both become: those of the first before those of the second.
const GRANTS: [Grant; 3] = [
    Grant {
        client: 10,
        exit: 2,
        visit: 0,
        name: 2,
    },
    Grant {
        client: 20,
        exit: 1,
        visit: 0,
        name: 1,
    },
    Grant {
        client: 30,
        exit: 0,
        visit: 0,
        name: 0,
    },
];

/// How many entered as far as each lane can see, where the steps lead, and whether grants, counts and passes are as
/// they should be.
type Outcome = ([u64; 2], Moves, [bool; 3]);

fn are_ended(quiet: &Quiet<'_>) -> [bool; 3] {
    [
        quiet.grants() == GRANTS.as_slice(),
        quiet.counts() == [1, 1, 1, 0].as_slice(),
        quiet.passes() == [3, 2, 1].as_slice(),
    ]
}

/// One steps twice.
fn step_twice(floor: &Floor<'_>, lane: &mut Lane, token: Token) -> [Option<Moved>; 2]
    requires { lane.old.home ≡ floor.now }
    ensures { lane.new.home ≡ lane.old.home }
{
    [step(floor, lane, token), step(floor, lane, token)]
}

/// The three walk, the last before the others.
fn walk(floor: &Floor<'_>, first: &mut Lane, second: &mut Lane, tokens: [Token; 3]) -> Moves
    requires first { first.old.home ≡ floor.now }
    requires second { second.old.home ≡ floor.now }
    ensures first { first.new.home ≡ first.old.home }
    ensures second { second.new.home ≡ second.old.home }
{
    let [ten, twenty, thirty] = tokens;
    let once = [
        step(floor, first, ten),
        step(floor, first, twenty),
        step(floor, second, thirty),
    ];
    let twice = [
        step_twice(floor, second, thirty),
        step_twice(floor, first, ten),
        step_twice(floor, first, twenty),
    ];
    (once, twice)
}

/// The three come in: their tokens.
fn come_in(floor: &Floor<'_>, first: &mut Lane, second: &mut Lane) -> Option<[Token; 3]>
    requires first { first.old.home ≡ floor.now }
    requires second { second.old.home ≡ floor.now }
    ensures first { first.new.home ≡ first.old.home }
    ensures second { second.new.home ≡ second.old.home }
{
    let ten = enter(floor, first, 10, 0).ok()?;
    let twenty = enter(floor, first, 20, 0).ok()?;
    let thirty = enter(floor, second, 30, 0).ok()?;
    Some([ten, twenty, thirty])
}

/// How many entered as far as each lane can see, and where the steps lead.
fn seen(floor: &Floor<'_>, first: &mut Lane, second: &mut Lane) -> Option<([u64; 2], Moves)>
    requires first { first.old.home ≡ floor.now }
    requires second { second.old.home ≡ floor.now }
    ensures first { first.new.home ≡ first.old.home }
    ensures second { second.new.home ≡ second.old.home }
{
    let tokens = come_in(floor, first, second)?;
    let moves = walk(floor, first, second, tokens);
    Some(([entered(floor, first), entered(floor, second)], moves))
}

/// The lanes become one again, and the floor is closed.
fn ended(floor: Floor<'_>, first: Lane, second: Lane) -> Option<[bool; 3]>
    requires { (first.home ≡ floor) × (second.home ≡ floor) }
{
    match join(&floor, first, second) {
        Some(lane) => left_on(floor, lane),
        None => None,
    }
}

fn left_on(floor: Floor<'_>, lane: Lane) -> Option<[bool; 3]>
    requires { lane.home ≡ floor }
{
    match close(floor, lane) {
        Some(quiet) => Some(are_ended(&quiet)),
        None => None,
    }
}

fn walked(floor: Floor<'_>, mut first: Lane, mut second: Lane) -> Option<Outcome>
    requires { (first.home ≡ floor) × (second.home ≡ floor) }
{
    let seen = seen(&floor, &mut first, &mut second);
    let are_ended = ended(floor, first, second)?;
    let (entered, moves) = seen?;
    Some((entered, moves, are_ended))
}

fn overtaking(alloc: Global) -> Option<Outcome> {
    let network = tree(alloc, 4).ok()?;
    let (floor, lane) = open(alloc, &network, 3)?;
    let (first, second) = split(&floor, lane, 1)?;
    walked(floor, first, second)
}

#[test]
fn tree_overtaking(rt: HostRuntime) -> Result<(), Fail> {
    assert_eq!(rt;
        overtaking(rt.alloc()),
        Some(([3, 3], OVERTAKING, [true, true, true]))
    );
    Ok(())
}
