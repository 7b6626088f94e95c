//! A worker that is held before one of its steps while two clients of another lane walk out: what they meet shows which
//! steps the worker has made. So it asks before a step, not after it: when it lets a client in, when a client that walks
//! by itself passes a balancer or leaves, and when it sweeps a wire.

ghost use Rattle.std.specs.Prelude.{◌≡◌, IfSome};

use crate::one_lane::step;
use crate::walks::{enter, entered, split};
use cn_bitonic::bitonic;
use cn_floor::{Floor, Gate, Lane, Moment};
use cn_ledger::{Client, Moved};
use cn_walk::walk_all;
use cn_wiring::Counting;
use std::alloc::Global;
use std::sync::atomic::{AtomicU64, Ordering};
use std::sync::{Mutex, Wait};

/// How many came in, how many passed the balancer, and how many left by each exit of bitonic 2.
type Words = (u64, u64, [u64; 2]);

/// Lets a client in by entry 0, and walks it out: the number of its passage, its exit and its visit.
fn walk_out(floor: &Floor<'_>, lane: &mut Lane, client: u64) -> Option<(u64, u32, u64)>
    requires { lane.old.home ≡ floor.now }
    ensures { lane.new.home ≡ lane.old.home }
{
    let token = enter(floor, lane, client, 0).ok()?;
    let on = step(floor, lane, token);
    let out = step(floor, lane, token);
    match (on, out) {
        (Some(Moved::On { number, .. }), Some(Moved::Out { exit, visit, .. })) => {
            Some((number, exit, visit))
        }
        _ => None,
    }
}

/// What two clients meet that walk out by a lane, one after the other: they leave by both exits.
fn words_met(floor: &Floor<'_>, lane: &mut Lane) -> Option<Words>
    requires { lane.old.home ≡ floor.now }
    ensures { lane.new.home ≡ lane.old.home }
{
    let came = entered(floor, lane);
    let one = walk_out(floor, lane, 8);
    let two = walk_out(floor, lane, 9);
    match (one, two) {
        (Some((number, 0, visit)), Some((_, 1, other))) => Some((came, number, [visit, other])),
        (Some((number, 1, visit)), Some((_, 0, other))) => Some((came, number, [other, visit])),
        _ => None,
    }
}

/// A lane of a floor.
#[derive(Drop)]
struct Other<'f, 'a> {
    floor: &'f Floor<'a>,
    lane: Lane,
    ghost own: { lane.home ≡ floor.now },
}

impl Other<'_, '_> {
    fn words_met(self) -> Option<Words> {
        let Other {
            floor,
            mut lane,
            ..
        } = self;
        words_met(floor, &mut lane)
    }
}

/// Lets the other lane's clients walk out once, before this one of the worker's steps, counted from 0.
#[derive(Drop)]
struct Stall<'f, 'a> {
    at: u64,
    asked: AtomicU64,
    other: Mutex<Option<Other<'f, 'a>>>,
    met: Mutex<Option<(Moment, Words)>>,
}

impl Gate for Stall<'_, '_> {
    fn before<R: Wait>(&self, rt: &R, _worker: u32, moment: Moment) {
        if self.asked.fetch_add(1, Ordering::SeqCst) != self.at {
            return;
        }
        let Some(other) = self.other.lock(rt).take() else {
            return;
        };
        if let Some(words) = other.words_met() {
            *self.met.lock(rt) = Some((moment, words));
        }
    }
}

/// Walks two clients through a lane of bitonic 2.
fn walk_two<G: Gate, R: Wait>(
    rt: &R,
    floor: &Floor<'_>,
    network: &Counting,
    mut lane: Lane,
    hand: u32,
    gate: &G,
) -> Option<Lane>
    requires own { lane.home ≡ floor.now }
    requires network { floor.now.start.network ≡ network.now }
{
    lane.reserve(2).ok()?;
    if network.entries() != 2 || hand == 0 || lane.inside() != 0 || lane.quota() < 2 {
        return None;
    }
    let clients = [Client { id: 5, entry: 0 }, Client { id: 6, entry: 0 }];
    Some(walk_all(rt, floor, lane, &clients, hand, gate, 0))
}

/// A gate that lets the other lane's clients walk out before this step.
fn stall_at<'f, 'a>(other: Other<'f, 'a>, at: u64) -> Stall<'f, 'a> {
    Stall {
        at,
        asked: AtomicU64::new(0),
        other: Mutex::new(Some(other)),
        met: Mutex::new(None),
    }
}

/// What they meet while two clients walk through a lane.
fn met_at<R: Wait>(
    rt: &R,
    floor: &Floor<'_>,
    network: &Counting,
    lane: Lane,
    hand: u32,
    gate: &Stall<'_, '_>,
) -> Option<(Moment, Words)>
    requires own { lane.home ≡ floor.now }
    requires network { floor.now.start.network ≡ network.now }
{
    walk_two(rt, floor, network, lane, hand, gate)?;
    *gate.met.lock(rt)
}

/// The same with two lanes of a floor.
fn met_between<R: Wait>(
    rt: &R,
    floor: &Floor<'_>,
    network: &Counting,
    lane: Lane,
    hand: u32,
    at: u64,
) -> Option<(Moment, Words)>
    requires own { lane.home ≡ floor.now }
    requires network { floor.now.start.network ≡ network.now }
{
    let (lane, other) = split(floor, lane, 2)?;
    let gate = stall_at(Other { floor, lane: other }, at);
    met_at(rt, floor, network, lane, hand, &gate)
}

fn met<R: Wait>(rt: &R, alloc: Global, hand: u32, at: u64) -> Option<(Moment, Words)> {
    let network = bitonic(alloc, 2).ok()?;
    match Floor::open(alloc, &network, 4) {
        Ok((floor, lane)) => met_between(rt, &floor, &network, lane, hand, at),
        Err(_) => None,
    }
}

/// One after the other: each token is alone in its lane.
const HAND_OF_ONE: &[(Moment, Words)] = &[
    (Moment::Enter, (0, 0, [0, 0])),
    (Moment::Pass, (1, 0, [0, 0])),
    (Moment::Leave, (1, 1, [0, 0])),
    (Moment::Enter, (1, 1, [1, 0])),
    (Moment::Pass, (2, 1, [1, 0])),
    (Moment::Leave, (2, 2, [1, 0])),
];

/// Both go by the balancer in one sweep.
const HAND_OF_TWO: &[(Moment, Words)] = &[
    (Moment::Enter, (0, 0, [0, 0])),
    (Moment::Enter, (1, 0, [0, 0])),
    (Moment::Pass, (2, 0, [0, 0])),
    (Moment::Leave, (2, 2, [0, 0])),
    (Moment::Leave, (2, 2, [1, 0])),
];

/// The first step of a walk with this hand before which the others meet something else.
fn wrong_step<R: Wait>(
    rt: &R,
    alloc: Global,
    hand: u32,
    wanted: &[(Moment, Words)],
) -> Option<usize> {
    for (at, words) in wanted.iter().enumerate() {
        if met(rt, alloc, hand, at as u64) != Some(*words) {
            return Some(at);
        }
    }
    None
}

#[test]
fn asked_before_each_step(rt: HostRuntime) {
    let one = wrong_step(&rt, rt.alloc(), 1, HAND_OF_ONE);
    let two = wrong_step(&rt, rt.alloc(), 2, HAND_OF_TWO);
    assert_eq!(rt; [one, two], [None, None]);
}
