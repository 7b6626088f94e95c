//! Two lanes of one floor, of which one is dropped with a client inside.

ghost use Rattle.std.specs.Prelude.{◌≡◌, IfSome};

use crate::one_lane::step;
use crate::walks::{enter, entered, open, split};
use cn_bitonic::bitonic;
use cn_floor::{CloseFault, Floor, Grant, JoinFault, Lane, LaneFault, SplitFault};
use cn_ledger::Moved;
use std::alloc::Global;
use std::test::Fail;

/// What the floor answers until it is spent.
#[derive(Clone, Copy, Debug, PartialEq, Eq)]
struct Outcome {
    split: SplitFault,
    seen: u64,
    refused: [Option<LaneFault>; 2],
    moves: [Option<Moved>; 2],
    joined: JoinFault,
    entered: u64,
    granted: u64,
    grant: Grant,
}

/// More than the lane has cannot be split off: the fault, and the lane.
fn not_split(floor: &Floor<'_>, lane: Lane) -> Option<(SplitFault, Lane)>
    requires { lane.home ≡ floor.now }
    ensures { IfSome result (λ r. r.1.home ≡ floor.now) }
{
    match floor.split(lane, 3) {
        Ok(_) => None,
        Err(refused) => Some(refused),
    }
}

/// The second lane, with a client inside, cannot be joined: the fault, and the first lane.
fn not_joined(floor: &Floor<'_>, first: Lane, second: Lane) -> Option<(JoinFault, Lane)>
    requires { (first.home ≡ floor.now) × (second.home ≡ floor.now) }
    ensures { IfSome result (λ r. r.1.home ≡ floor.now) }
{
    match floor.join(first, second) {
        Ok(_) => None,
        Err((fault, first, _second)) => Some((fault, first)),
    }
}

/// What a close answers to a lane that lacks a client's grant.
type Missed = (u64, u64, Grant);

fn missed(floor: Floor<'_>, lane: Lane) -> Option<Missed>
    requires { lane.home ≡ floor }
{
    let Err(
        CloseFault::LanesMissing {
            entered,
            granted,
            grants,
        },
    ) = floor.close(lane)
    else {
        return None;
    };
    let [grant] = grants.as_slice() else {
        return None;
    };
    Some((entered, granted, *grant))
}

/// The second lane is dropped, since it cannot be joined, and its client is missed.
fn not_joined_and_missed(floor: Floor<'_>, first: Lane, second: Lane) -> Option<(JoinFault, Missed)>
    requires { (first.home ≡ floor) × (second.home ≡ floor) }
{
    match not_joined(&floor, first, second) {
        Some((fault, first)) => Some((fault, missed(floor, first)?)),
        None => None,
    }
}

/// What the first lane is answered while both have a client inside.
type Seen = (u64, [Option<LaneFault>; 2], [Option<Moved>; 2]);

/// A client comes in by each lane, and that of the first walks out.
fn answered(floor: &Floor<'_>, first: &mut Lane, second: &mut Lane) -> Option<Seen>
    requires first { first.old.home ≡ floor.now }
    requires second { second.old.home ≡ floor.now }
    ensures first { first.new.home ≡ first.old.home }
    ensures second { second.new.home ≡ second.old.home }
{
    let token = enter(floor, first, 7, 0).ok()?;
    enter(floor, second, 9, 1).ok()?;
    let seen = entered(floor, first);
    let refused = [
        enter(floor, first, 8, 2).err(),
        enter(floor, first, 8, 0).err(),
    ];
    let moves = [step(floor, first, token), step(floor, first, token)];
    Some((seen, refused, moves))
}

/// The client of the first lane walks out; the second lane, whose client stays inside, is dropped.
fn one_walks_out(
    floor: Floor<'_>,
    mut first: Lane,
    mut second: Lane,
    split: SplitFault,
) -> Option<Outcome>
    requires { (first.home ≡ floor) × (second.home ≡ floor) }
{
    let answers = answered(&floor, &mut first, &mut second);
    let (joined, (entered, granted, grant)) = not_joined_and_missed(floor, first, second)?;
    let (seen, refused, moves) = answers?;
    Some(Outcome {
        split,
        seen,
        refused,
        moves,
        joined,
        entered,
        granted,
        grant,
    })
}

fn dropped(floor: Floor<'_>, lane: Lane) -> Option<Outcome>
    requires { lane.home ≡ floor }
{
    let (fault, lane) = not_split(&floor, lane)?;
    let (first, second) = split(&floor, lane, 1)?;
    one_walks_out(floor, first, second, fault)
}

fn one_dropped(alloc: Global) -> Option<Outcome> {
    let network = bitonic(alloc, 2).ok()?;
    let (floor, lane) = open(alloc, &network, 2)?;
    dropped(floor, lane)
}

#[test]
fn dropped_lane(rt: HostRuntime) -> Result<(), Fail> {
    let wanted = Outcome {
        split: SplitFault::QuotaTooSmall,
        seen: 2,
        refused: [Some(LaneFault::NoSuchEntry), Some(LaneFault::QuotaSpent)],
        moves: [
            Some(Moved::On {
                balancer: 0,
                number: 0,
                wire: 2,
            }),
            Some(Moved::Out {
                exit: 0,
                visit: 0,
                name: 0,
            }),
        ],
        joined: JoinFault::StillWalking,
        entered: 2,
        granted: 1,
        grant: Grant {
            client: 7,
            exit: 0,
            visit: 0,
            name: 0,
        },
    };
    assert_eq!(rt; one_dropped(rt.alloc()), Some(wanted));
    Ok(())
}
