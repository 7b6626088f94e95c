//! Two threads that share a floor, and neither knows beforehand whom it names or how many: each makes clients of its
//! own until both have enough names.

ghost use Rattle.std.specs.Prelude.{◌≡◌, IfSome};

use super::{Shared, name_by_two, name_of};
use crate::walks::{close, entered, join, open, split};
use cn_bitonic::bitonic;
use cn_floor::{Floor, Lane, Quiet};
use std::alloc::Global;
use std::sync::Wait;
use std::sync::atomic::{AtomicU64, Ordering};
use std::thread::Threads;

/// How many names each thread wants.
const ENOUGH: usize = 100;

/// A floor, and which of two threads have enough names.
#[derive(Drop)]
struct Crowd<'f, 'a> {
    floor: &'f Floor<'a>,
    has_enough: [AtomicU64; 2],
}

impl Crowd<'_, '_> {
    /// Says that the thread of this entry has so many names: whether both have enough.
    fn have_enough(&self, names: usize, entry: u64) -> bool {
        let [first, second] = &self.has_enough;
        let (own, other) = if entry == 0 {
            (first, second)
        } else {
            (second, first)
        };
        if names < ENOUGH {
            return false;
        }
        own.store(1, Ordering::SeqCst);
        other.load(Ordering::SeqCst) == 1
    }
}

impl<'f, 'a> Shared for Crowd<'f, 'a> {
    ghost home = { λ crowd. crowd.floor.now };

    /// Names clients that the thread of no other entry makes, until both threads have enough or the quota is spent.
    fn name_all(&self, mut lane: Lane, _first: u64, entry: u64) -> Lane {
        for client in 0..lane.quota() {
            if self.have_enough(lane.grants().len(), entry) {
                return lane;
            }
            let client = client.saturating_mul(2).saturating_add(entry);
            name_of(self.floor, &mut lane, client, entry);
        }
        lane
    }
}

/// Two threads name clients, each with a quota of 1,000. The lanes come back as one.
fn name_as(rt: &(impl Threads + Wait), crowd: &Crowd<'_, '_>, lane: Lane) -> Option<Lane>
    requires { lane.home ≡ crowd.now.floor.now }
    ensures { IfSome result (λ lane. lane.home ≡ crowd.now.floor.now) }
{
    let (first, second) = split(crowd.floor, lane, 1_000)?;
    let (first, second) = name_by_two(rt, crowd, first, second)?;
    join(crowd.floor, first, second)
}

/// The same of a crowd in which nobody has a name yet.
fn name_at_once(rt: &(impl Threads + Wait), floor: &Floor<'_>, lane: Lane) -> Option<Lane>
    requires { lane.home ≡ floor.now }
    ensures { IfSome result (λ lane. lane.home ≡ floor.now) }
{
    let has_enough = [AtomicU64::new(0), AtomicU64::new(0)];
    name_as(rt, &Crowd { floor, has_enough }, lane)
}

/// How many leave by each exit of four, of so many.
fn shares(clients: u64) -> [u64; 4] {
    [3, 2, 1, 0].map(|more| clients.saturating_add(more) / 4)
}

/// Whether these numbers are those from 0 to below so many, each once, in some order.
fn are_all_below(mut numbers: Vec<u64>, count: u64) -> bool {
    numbers.sort().is_ok() && numbers.iter().copied().eq(0..count)
}

/// Whether each number comes once.
fn differ(mut numbers: Vec<u64>) -> bool {
    if numbers.sort().is_err() {
        return false;
    }
    let mut before = None;
    for number in &numbers {
        if before == Some(*number) {
            return false;
        }
        before = Some(*number);
    }
    true
}

fn names(alloc: Global, quiet: &Quiet<'_>) -> Option<Vec<u64>> {
    let mut names = Vec::new(alloc);
    for grant in quiet.grants() {
        names.push(grant.name).ok()?;
    }
    Some(names)
}

/// Whether so many are as many as can be, left by their shares, have the first names, and are different clients.
fn are_named(alloc: Global, quiet: &Quiet<'_>, clients: u64) -> Option<[bool; 4]> {
    Some([
        (200..=2_000).contains(&clients),
        quiet.counts() == shares(clients).as_slice(),
        are_all_below(names(alloc, quiet)?, clients),
        differ(quiet.holders().ok()?),
    ])
}

/// The same, when the two threads have named on a floor, by how many came in then, as far as its one lane can see.
fn named(
    rt: &(impl Threads + Wait),
    alloc: Global,
    floor: Floor<'_>,
    lane: Lane,
) -> Option<[bool; 4]>
    requires { lane.home ≡ floor }
{
    let mut lane = name_at_once(rt, &floor, lane)?;
    let clients = entered(&floor, &mut lane);
    let quiet = close(floor, lane)?;
    are_named(alloc, &quiet, clients)
}

/// The same on a floor of their own.
fn two_threads(rt: &(impl Threads + Wait), alloc: Global) -> Option<[bool; 4]> {
    let network = bitonic(alloc, 4).ok()?;
    let (floor, lane) = open(alloc, &network, 2_000)?;
    named(rt, alloc, floor, lane)
}

#[test]
fn callers_without_a_list(rt: HostRuntime) {
    assert_eq!(rt; two_threads(&rt, rt.alloc()), Some([true; 4]));
}
