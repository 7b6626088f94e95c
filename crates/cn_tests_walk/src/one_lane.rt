//! Three clients in one lane of a counting tree of width 4, of which the last overtakes the others, and what is
//! answered.

ghost use Rattle.std.specs.Prelude.{◌≡◌};

use cn_floor::{Floor, Lane, Quiet};
use cn_ledger::Moved;
use cn_tree::tree;
use cn_yard::Token;
use std::alloc::Global;

/// What a floor answers about the three.
#[derive(Drop)]
struct Said {
    entered: u64,
    moves: Vec<Moved>,
    counts: Vec<u64>,
    passes: Vec<u64>,
    holders: Vec<u64>,
}

/// Steps a token, if it stands in the lane.
pub(crate) fn step(floor: &Floor<'_>, lane: &mut Lane, token: Token) -> Option<Moved>
    requires { lane.old.home ≡ floor.now }
    ensures { lane.new.home ≡ lane.old.home }
{
    if lane.is_live(token) {
        Some(floor.step(lane, token))
    } else {
        None
    }
}

/// Steps the tokens of a lane in this order.
fn walk(floor: &Floor<'_>, lane: &mut Lane, order: &[Token], moves: &mut Vec<Moved>) -> Option<()>
    requires { lane.old.home ≡ floor.now }
    ensures { lane.new.home ≡ lane.old.home }
{
    for token in order {
        let moved = step(floor, lane, *token)?;
        if moves.push(moved).is_err() {
            return None;
        }
    }
    Some(())
}

/// The clients 10, 20 and 30 come in by the one entry of the tree.
fn come_in(floor: &Floor<'_>, lane: &mut Lane) -> Option<[Token; 3]>
    requires { lane.old.home ≡ floor.now }
    ensures { lane.new.home ≡ lane.old.home }
{
    let ten = floor.enter(lane, 10, 0).ok()?;
    let twenty = floor.enter(lane, 20, 0).ok()?;
    let thirty = floor.enter(lane, 30, 0).ok()?;
    Some([ten, twenty, thirty])
}

/// The three come in, and walk: how many came in, and each answer.
fn walk_three(alloc: Global, floor: &Floor<'_>, lane: &mut Lane) -> Option<(u64, Vec<Moved>)>
    requires { lane.old.home ≡ floor.now }
    ensures { lane.new.home ≡ lane.old.home }
{
    let [ten, twenty, thirty] = come_in(floor, lane)?;
    let entered = floor.entered(lane);
    let order = [
        ten, twenty, thirty, thirty, thirty, ten, ten, twenty, twenty,
    ];
    let mut moves = Vec::new(alloc);
    walk(floor, lane, &order, &mut moves)?;
    Some((entered, moves))
}

/// What a closed floor answers.
fn said_by(alloc: Global, quiet: &Quiet<'_>, entered: u64, moves: Vec<Moved>) -> Option<Said> {
    Some(Said {
        entered,
        moves,
        counts: Vec::from_slice(alloc, quiet.counts()).ok()?,
        passes: Vec::from_slice(alloc, quiet.passes()).ok()?,
        holders: quiet.holders().ok()?,
    })
}

/// What the floor answers when they have walked.
fn walked(alloc: Global, floor: Floor<'_>, mut lane: Lane) -> Option<Said>
    requires { lane.home ≡ floor }
{
    let (entered, moves) = walk_three(alloc, &floor, &mut lane)?;
    let quiet = floor.close(lane).ok()?;
    said_by(alloc, &quiet, entered, moves)
}

/// The same, on a floor of their own.
fn three_clients(alloc: Global) -> Option<Said> {
    let network = tree(alloc, 4).ok()?;
    let (floor, lane) = Floor::open(alloc, &network, 3).ok()?;
    walked(alloc, floor, lane)
}

/// Where each step leads.
const MOVES: [Moved; 9] = [
    Moved::On {
        balancer: 0,
        number: 0,
        wire: 1,
    },
    Moved::On {
        balancer: 0,
        number: 1,
        wire: 2,
    },
    Moved::On {
        balancer: 0,
        number: 2,
        wire: 1,
    },
    Moved::On {
        balancer: 1,
        number: 0,
        wire: 3,
    },
    Moved::Out {
        exit: 0,
        visit: 0,
        name: 0,
    },
    Moved::On {
        balancer: 1,
        number: 1,
        wire: 4,
    },
    Moved::Out {
        exit: 2,
        visit: 0,
        name: 2,
    },
    Moved::On {
        balancer: 2,
        number: 0,
        wire: 5,
    },
    Moved::Out {
        exit: 1,
        visit: 0,
        name: 1,
    },
];

/// Whether each answer is right: how many entered, each answer, the counts, the passes and the holders.
fn is_right(said: &Said) -> [bool; 5] {
    [
        said.entered == 3,
        said.moves.as_slice() == MOVES.as_slice(),
        said.counts.as_slice() == [1, 1, 1, 0].as_slice(),
        said.passes.as_slice() == [3, 2, 1].as_slice(),
        said.holders.as_slice() == [30, 20, 10].as_slice(),
    ]
}

fn are_right(alloc: Global) -> Option<[bool; 5]> {
    match three_clients(alloc) {
        Some(said) => Some(is_right(&said)),
        None => None,
    }
}

#[test]
fn tree_on_one_lane(rt: HostRuntime) {
    assert_eq!(rt; are_right(rt.alloc()), Some([true; 5]));
}
