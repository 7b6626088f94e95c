//! Many workers: their lanes, and the threads that walk them.

ghost use Rattle.std.specs.Prelude.{◌≡◌, ℕ, ◌+◌, ◌-◌, ◌*◌, ◌/◌, ◌<◌, ◌≤◌, All, IfSome, length};
ghost use Rattle.cn_spec.specs.declared.limits.TheConstants.{MOST_NAMED};
ghost use Rattle.cn_walk.specs.Parts.{AreOf, AreReady, HasNothing, IsOne, IsPair, MayWalk, first_position, whole};
ghost use Rattle.cn_walk.specs.Parts.{SpareAtMost, together};
ghost use Rattle.cn_walk.specs.Walks.{GrantsInOrder, IsSole, WalksAll};
ghost use Rattle.cn_yard.specs.Lists.{tokens_in};
ghost use denote.Param.Send.{IsSync};

use crate::crew::Crew;
use crate::joining::join_once;
use crate::walking::walk_all;
use cn_floor::{Floor, Gate, Lane, SharedFloor};
use cn_ledger::Client;
use std::alloc::Global;
use std::sync::Wait;
use std::thread::Threads;

/// The lanes of workers whose numbers follow one another.
#[derive(Drop)]
pub(crate) enum Lanes {
    /// One worker's lane, and its number.
    One(Lane, u32),
    /// The number of clients of the first part of the workers, and the lanes of both parts.
    Fork(u32, Box<Lanes>, Box<Lanes>),
}

/// The position of a worker's first client among all; that of the worker after the last is the number of clients.
fn first_position(clients: u32, workers: u32, worker: u32) -> u32
    requires { (0 < workers) × (worker ≤ workers) }
    ensures value { result ≡ first_position clients workers worker }
    ensures within { result ≤ clients }
{
    (u64::from(worker) * u64::from(clients) / u64::from(workers)) as u32
}

/// The first worker of the second of two parts, which has about a quarter of the workers.
fn cut(from: u32, to: u32) -> u32
    requires { from + 2 ≤ to }
    ensures { (from < result) × (result < to) }
{
    to - 1 - (to - from - 2) / 4
}

/// Makes the lanes of the crew's workers from `from` up to, not including, `to`, out of one, and reserves their memory:
/// each has quota and room for its own clients, and records for a hand of them, or as many as the one had, and of a
/// fork's two parts the first has room for the grants of both. The second part has about a quarter of the workers, and
/// one at least, so that few grants are there twice while it is joined to the first. Workers without clients get no
/// lane; if none of these has clients, the first one has the lane. `None` if memory is refused.
pub(crate) fn make_lanes<'a>(
    alloc: Global,
    floor: &Floor<'a>,
    mut lane: Lane,
    clients: u32,
    crew: Crew,
    from: u32,
    to: u32,
) -> Option<Lanes>
    requires own { lane.home ≡ floor.now }
    requires range { (from < to) × (to ≤ crew.workers) × (clients ≤ MOST_NAMED) }
    requires nothing { HasNothing lane }
    requires quota { first_position clients crew.workers to - first_position clients crew.workers from
        ≤ lane.view.quota }
    ensures ready { IfSome result (λ lanes. AreReady floor.now
        (first_position clients crew.workers to - first_position clients crew.workers from) crew.hand lanes) }
    ensures workers { IfSome result (λ lanes. AreOf clients crew.workers from to lanes) }
    ensures room { IfSome result (λ lanes. lane.room ≤ (whole lanes).room) }
    ensures spare { IfSome result (λ lanes. lane.yard.spare ≤ (whole lanes).yard.spare) }
    ensures few { IfSome result (λ lanes. (n : ℕ) → lane.yard.spare ≤ n → crew.hand ≤ n → SpareAtMost n lanes) }
{
    let first = first_position(clients, crew.workers, from);
    let own = first_position(clients, crew.workers, to) - first;
    let Ok(()) = lane.reserve_apart(u64::from(own), u64::from(own.min(crew.hand))) else {
        return None;
    };
    if own == 0 || to - from == 1 {
        return Some(Lanes::One(lane, from));
    }
    let middle = cut(from, to);
    let at = first_position(clients, crew.workers, middle) - first;
    if at == 0 {
        return make_lanes(alloc, floor, lane, clients, crew, middle, to);
    }
    if at == own {
        return make_lanes(alloc, floor, lane, clients, crew, from, middle);
    }
    let Ok((lane, other)) = floor.split(lane, u64::from(own - at)) else {
        return None;
    };
    let left = make_lanes(alloc, floor, lane, clients, crew, from, middle)?;
    let right = make_lanes(alloc, floor, other, clients, crew, middle, to)?;
    pair(alloc, at, left, right)
}

/// A fork of two parts.
fn pair(alloc: Global, at: u32, left: Lanes, right: Lanes) -> Option<Lanes>
    ensures { IfSome result (λ lanes. IsPair at left right lanes) }
{
    let left = Box::new(alloc, left).ok()?;
    let right = Box::new(alloc, right).ok()?;
    Some(Lanes::Fork(at, left, right))
}

/// Takes the second of a floor's lanes, in which nobody is inside, into the first, which has room for its grants.
fn take_in<'a>(floor: &Floor<'a>, lane: Lane, other: Lane) -> Lane
    requires own { (lane.home ≡ floor.now) × (other.home ≡ floor.now) }
    requires out { tokens_in other.yard.lists ≡ 0 }
    requires room { length other.view.grants ≤ lane.room }
    ensures { result ≡ together lane other }
{
    match floor.join(lane, other) {
        Ok(lane) => lane,
        Err(_) => unreachable!(),
    }
}

/// Walks the clients through the lanes, the first part of a fork in a thread of its own beside the second, and joins
/// the lanes. If no thread can be had the parts are walked one after the other. A single lane is walked here.
pub(crate) fn walk_lanes<F: SharedFloor + Sync, G: Gate + Sync, R: Threads + Wait + Sync>(
    rt: &R,
    floor: &F,
    lanes: Lanes,
    clients: &[Client],
    crew: Crew,
    gate: &G,
) -> Lane
    requires ready { AreReady (F.home floor.now) (length clients.now) crew.hand lanes }
    requires entries { All (λ c.
        c.entry < (F.home floor.now).start.network.table.entries) clients.now }
    requires hand { 0 < crew.hand }
    ensures walked { WalksAll (whole lanes) result clients.now }
    ensures in_order { crew.hand ≡ 1 → IsOne lanes → IsSole (whole lanes)
        → GrantsInOrder (whole lanes) result clients.now }
{
    match lanes {
        Lanes::One(lane, worker) => {
            let number = crew.first.wrapping_add(worker);
            walk_all(rt, floor.floor(), lane, clients, crew.hand, gate, number)
        }
        Lanes::Fork(at, left, right) => {
            let left = Box::into_inner(left);
            let right = Box::into_inner(right);
            let (first, second) = clients.split_at(at as usize);
            let (lane, other) = join_once(
                rt,
                move || -> Lane
                    requires { IsSync R.row × IsSync F.row × IsSync G.row
                        × MayWalk (F.home floor.now) first.now crew.hand left }
                    ensures { WalksAll (whole left) result first.entry.now }
                { walk_lanes(rt, floor, left, first, crew, gate) },
                move || -> Lane
                    requires { IsSync R.row × IsSync F.row × IsSync G.row
                        × MayWalk (F.home floor.now) second.now crew.hand right }
                    ensures { WalksAll (whole right) result second.entry.now }
                { walk_lanes(rt, floor, right, second, crew, gate) },
            );
            take_in(floor.floor(), lane, other)
        }
    }
}
