//! Lanes of one floor, of which some are dropped, before or after what they do: when the floor is closed, only what a
//! dropped lane let in is missing.

ghost use Rattle.std.specs.Prelude.{◌≡◌, IfSome};

use crate::one_lane::step;
use crate::walks::{enter, join, open, split};
use cn_bitonic::bitonic;
use cn_floor::{CloseFault, Floor, Grant, Lane, LaneFault, Quiet};
use cn_ledger::Moved;
use cn_wiring::Counting;
use std::alloc::Global;

/// The four steps of 7 and 8, who come in by entry 0 of bitonic 2, each in a lane of its own, and walk out one after
/// the other.
type Steps = [Option<Moved>; 4];

const MOVES: Steps = [
    Some(Moved::On {
        balancer: 0,
        number: 0,
        wire: 2,
    }),
    SEVEN_LEAVES,
    Some(Moved::On {
        balancer: 0,
        number: 1,
        wire: 3,
    }),
    EIGHT_LEAVES,
];

const SEVEN_LEAVES: Option<Moved> = Some(Moved::Out {
    exit: 0,
    visit: 0,
    name: 0,
});

const EIGHT_LEAVES: Option<Moved> = Some(Moved::Out {
    exit: 1,
    visit: 0,
    name: 1,
});

fn walk_both(floor: &Floor<'_>, first: &mut Lane, second: &mut Lane) -> Option<Steps>
    requires first { first.old.home ≡ floor.now }
    requires second { second.old.home ≡ floor.now }
    ensures first { first.new.home ≡ first.old.home }
    ensures second { second.new.home ≡ second.old.home }
{
    let seven = enter(floor, first, 7, 0).ok()?;
    let eight = enter(floor, second, 8, 0).ok()?;
    Some([
        step(floor, first, seven),
        step(floor, first, seven),
        step(floor, second, eight),
        step(floor, second, eight),
    ])
}

/// Three lanes with a quota of 1, into which one with a quota of 3 is split.
fn three_of(floor: &Floor<'_>, lane: Lane) -> Option<(Lane, Lane, Lane)>
    requires { lane.home ≡ floor.now }
    ensures { IfSome result (λ r. (r.0.home ≡ floor.now) × (r.1.home ≡ floor.now) × (r.2.home ≡ floor.now)) }
{
    let (first, second) = split(floor, lane, 2)?;
    let (second, third) = split(floor, second, 1)?;
    if (first.quota(), second.quota(), third.quota()) == (1, 1, 1) {
        Some((first, second, third))
    } else {
        None
    }
}

/// Only the third lane is dropped, after the others have walked: their steps, and both as one.
fn third_dropped(floor: &Floor<'_>, lane: Lane) -> Option<(Steps, Lane)>
    requires { lane.home ≡ floor.now }
    ensures { IfSome result (λ r. r.1.home ≡ floor.now) }
{
    let (mut first, mut second, third) = three_of(floor, lane)?;
    let steps = walk_both(floor, &mut first, &mut second)?;
    drop(third);
    let lane = join(floor, first, second)?;
    Some((steps, lane))
}

/// The second lane is dropped too, with its name: the steps, and the first.
fn second_dropped(floor: &Floor<'_>, lane: Lane) -> Option<(Steps, Lane)>
    requires { lane.home ≡ floor.now }
    ensures { IfSome result (λ r. r.1.home ≡ floor.now) }
{
    let (mut first, mut second, third) = three_of(floor, lane)?;
    let steps = walk_both(floor, &mut first, &mut second)?;
    drop(third);
    drop(second);
    Some((steps, first))
}

/// The second lane is dropped with its client inside: the first, which let nobody in.
fn second_dropped_at_once(floor: &Floor<'_>, lane: Lane) -> Option<(Steps, Lane)>
    requires { lane.home ≡ floor.now }
    ensures { IfSome result (λ r. r.1.home ≡ floor.now) }
{
    let (first, mut second, third) = three_of(floor, lane)?;
    drop(third);
    enter(floor, &mut second, 8, 0).ok()?;
    drop(second);
    Some(([None; 4], first))
}

/// A client comes in by entry 0 and walks out: its last step.
fn walk(floor: &Floor<'_>, lane: &mut Lane, client: u64) -> Option<Moved>
    requires { lane.old.home ≡ floor.now }
    ensures { lane.new.home ≡ lane.old.home }
{
    let token = enter(floor, lane, client, 0).ok()?;
    step(floor, lane, token)?;
    step(floor, lane, token)
}

/// A lane with a quota of 0 refuses a client and is dropped: the last steps of 7 and 8, and the lane that they walk
/// out of.
fn empty_dropped(floor: &Floor<'_>, lane: Lane) -> Option<(Steps, Lane)>
    requires { lane.home ≡ floor.now }
    ensures { IfSome result (λ r. r.1.home ≡ floor.now) }
{
    let (mut lane, mut empty) = split(floor, lane, 0)?;
    let is_refused = enter(floor, &mut empty, 9, 0) == Err(LaneFault::QuotaSpent);
    drop(empty);
    let (seven, eight) = (walk(floor, &mut lane, 7), walk(floor, &mut lane, 8));
    if is_refused {
        Some(([None, seven, None, eight], lane))
    } else {
        None
    }
}

/// Which lanes of a floor are dropped, and when.
#[derive(Clone, Copy, Debug, PartialEq, Eq)]
enum Dropped {
    Third,
    Second,
    SecondAtOnce,
    Empty,
}

/// What a close answers: whether counts, passes and holders are those of 7 and 8; or how many came in, how many grants
/// the lane has, and whether they are those of 7 or none.
#[derive(Clone, Copy, Debug, PartialEq, Eq)]
enum End {
    Quiet([bool; 3]),
    Missing(u64, u64, bool),
}

fn left_by(quiet: &Quiet<'_>) -> End {
    let are_holders = match quiet.holders() {
        Ok(holders) => holders.as_slice() == [7, 8].as_slice(),
        Err(_) => false,
    };
    End::Quiet([
        quiet.counts() == [1, 1].as_slice(),
        quiet.passes() == [2].as_slice(),
        are_holders,
    ])
}

const SEVEN: Grant = Grant {
    client: 7,
    exit: 0,
    visit: 0,
    name: 0,
};

fn closed(floor: Floor<'_>, lane: Lane) -> Option<End>
    requires { lane.home ≡ floor }
{
    match floor.close(lane) {
        Ok(quiet) => Some(left_by(&quiet)),
        Err(
            CloseFault::LanesMissing {
                entered,
                granted,
                grants,
            },
        ) => {
            let are_known = match granted {
                0 => grants.is_empty(),
                _ => grants.as_slice() == [SEVEN].as_slice(),
            };
            Some(End::Missing(entered, granted, are_known))
        }
        Err(_) => None,
    }
}

/// The steps of a story, and the lane that is left.
fn drop_lanes(floor: &Floor<'_>, lane: Lane, dropped: Dropped) -> Option<(Steps, Lane)>
    requires { lane.home ≡ floor.now }
    ensures { IfSome result (λ r. r.1.home ≡ floor.now) }
{
    match dropped {
        Dropped::Third => third_dropped(floor, lane),
        Dropped::Second => second_dropped(floor, lane),
        Dropped::SecondAtOnce => second_dropped_at_once(floor, lane),
        Dropped::Empty => empty_dropped(floor, lane),
    }
}

/// The steps of a story, and what a close answers then.
fn outcome_by(floor: Floor<'_>, lane: Lane, dropped: Dropped) -> Option<(Steps, End)>
    requires { lane.home ≡ floor }
{
    let (steps, lane) = drop_lanes(&floor, lane, dropped)?;
    let end = closed(floor, lane)?;
    Some((steps, end))
}

fn outcome_on(alloc: Global, network: &Counting, dropped: Dropped) -> Option<(Steps, End)> {
    match open(alloc, network, 3) {
        Some((floor, lane)) => outcome_by(floor, lane, dropped),
        None => None,
    }
}

fn outcome(alloc: Global, dropped: Dropped) -> Option<(Steps, End)> {
    match bitonic(alloc, 2) {
        Ok(network) => outcome_on(alloc, &network, dropped),
        Err(_) => None,
    }
}

const STORIES: [(Dropped, (Steps, End)); 4] = [
    (Dropped::Third, (MOVES, End::Quiet([true; 3]))),
    (Dropped::Second, (MOVES, End::Missing(2, 1, true))),
    (Dropped::SecondAtOnce, ([None; 4], End::Missing(1, 0, true))),
    (
        Dropped::Empty,
        (
            [None, SEVEN_LEAVES, None, EIGHT_LEAVES],
            End::Quiet([true; 3]),
        ),
    ),
];

/// The first story that ends otherwise.
fn wrong_story(alloc: Global) -> Option<Dropped> {
    for (dropped, wanted) in &STORIES {
        if outcome(alloc, *dropped) != Some(*wanted) {
            return Some(*dropped);
        }
    }
    None
}

#[test]
fn dropped_lanes(rt: HostRuntime) {
    assert_eq!(rt; wrong_story(rt.alloc()), None);
}
