//! A caller with two threads of its own, each with a lane of a floor that they share.

ghost use Rattle.std.specs.Prelude.{◌≡◌, IfSome};

use cn_bitonic::bitonic;
use cn_floor::{Floor, Lane, Quiet};
use cn_ledger::Moved;
use std::alloc::Global;
use std::sync::Wait;
use std::thread;
use std::thread::{Promise, Threads};

mod without_a_list;

/// Lets a client in by an entry of bitonic 4, and walks it out: its name.
fn name_of(floor: &Floor<'_>, lane: &mut Lane, client: u64, entry: u64) -> Option<u64>
    requires { lane.old.home ≡ floor.now }
    ensures { lane.new.home ≡ lane.old.home }
{
    let token = floor.enter(lane, client, entry).ok()?;
    for _ in 0..4 {
        if !lane.is_live(token) {
            return None;
        }
        if let Moved::Out { name, .. } = floor.step(lane, token) {
            return Some(name);
        }
    }
    None
}

/// Names clients from this one on, as many as the lane's quota lets in, and gives the lane back.
fn name_all(floor: &Floor<'_>, mut lane: Lane, first: u64, entry: u64) -> Lane
    requires { lane.home ≡ floor.now }
    ensures { result.home ≡ floor.now }
{
    for client in first..first.saturating_add(lane.quota()) {
        name_of(floor, &mut lane, client, entry);
    }
    lane
}

/// What the threads share. The closure of a thread that captures a `&Floor<'a>` promises nothing, so it captures a type
/// parameter, for which the floor stands.
trait Shared {
    ghost use Rattle.cn_floor.specs.Lane.{FloorValue};

    ghost home: { Self → FloorValue };

    fn name_all(&self, lane: Lane, first: u64, entry: u64) -> Lane
        requires { lane.home ≡ Self.home self.now }
        ensures { result.home ≡ Self.home self.now };
}

impl<'a> Shared for Floor<'a> {
    ghost home = { λ floor. floor };

    fn name_all(&self, lane: Lane, first: u64, entry: u64) -> Lane {
        name_all(self, lane, first, entry)
    }
}

/// A lane that comes back from a thread is on its floor still.
#[derive(Clone, Copy)]
struct IsOn<'g, G>(&'g G);

impl<'g, G: Shared> Promise<Lane> for IsOn<'g, G> {
    ghost kept_by = { λ p lane. lane.home ≡ G.home p.0.now };
}

/// Two threads name clients at once, each by a lane of its own. `None` if a thread is refused.
fn name_by_two<G: Shared + Sync, R: Threads + Wait>(
    rt: &R,
    shared: &G,
    first: Lane,
    second: Lane,
) -> Option<(Lane, Lane)>
    requires { (first.home ≡ G.home shared.now) × (second.home ≡ G.home shared.now) }
    ensures { IfSome result (λ r. (r.0.home ≡ G.home shared.now) × (r.1.home ≡ G.home shared.now)) }
{
    thread::scope(
        thread::scope_env(),
        rt,
        move |scope| -> Option<(Lane, Lane)>
            requires { (first.home ≡ G.home shared.now) × (second.home ≡ G.home shared.now) }
            ensures { IfSome result (λ r. (r.0.home ≡ G.home shared.entry.now)
                × (r.1.home ≡ G.home shared.entry.now)) }
        {
            let one = scope.spawn_with(
                IsOn(shared),
                move || -> Lane
                    requires { first.home ≡ G.home shared.now }
                    ensures { result.home ≡ G.home shared.entry.now }
                { shared.name_all(first, 10, 0) },
            );
            let two = scope.spawn_with(
                IsOn(shared),
                move || -> Lane
                    requires { second.home ≡ G.home shared.now }
                    ensures { result.home ≡ G.home shared.entry.now }
                { shared.name_all(second, 20, 1) },
            );
            Some((one.ok()?.join(rt), two.ok()?.join(rt)))
        },
    )
}

/// Names clients in two threads, of which the second has a quota of 2. The lanes come back as one.
fn name_at_once(rt: &(impl Threads + Wait), floor: &Floor<'_>, lane: Lane) -> Option<Lane>
    requires { lane.home ≡ floor.now }
    ensures { IfSome result (λ lane. lane.home ≡ floor.now) }
{
    let Ok((first, second)) = floor.split(lane, 2) else {
        return None;
    };
    let (first, second) = name_by_two(rt, floor, first, second)?;
    match floor.join(first, second) {
        Ok(lane) => Some(lane),
        Err(_) => None,
    }
}

/// How many left by each exit, and who has names.
fn left_by(alloc: Global, quiet: &Quiet<'_>) -> Option<(Vec<u64>, Vec<u64>)> {
    let counts = Vec::from_slice(alloc, quiet.counts()).ok()?;
    let holders = quiet.holders().ok()?;
    Some((counts, holders))
}

/// Two threads name clients, and the floor is closed.
fn named(
    rt: &(impl Threads + Wait),
    alloc: Global,
    floor: Floor<'_>,
    lane: Lane,
) -> Option<(Vec<u64>, Vec<u64>)>
    requires { lane.home ≡ floor }
{
    let lane = name_at_once(rt, &floor, lane)?;
    let quiet = floor.close(lane).ok()?;
    left_by(alloc, &quiet)
}

/// They name five clients.
fn two_threads(rt: &(impl Threads + Wait), alloc: Global) -> Option<(Vec<u64>, Vec<u64>)> {
    let network = bitonic(alloc, 4).ok()?;
    let (floor, lane) = Floor::open(alloc, &network, 5).ok()?;
    named(rt, alloc, floor, lane)
}

/// The same, with the clients in order: whether the counts and the clients are right.
fn named_in_order(rt: &(impl Threads + Wait), alloc: Global) -> Option<[bool; 2]> {
    let (counts, mut clients) = two_threads(rt, alloc)?;
    clients.sort().ok()?;
    Some([
        counts.as_slice() == [2, 1, 1, 1].as_slice(),
        clients.as_slice() == [10, 11, 12, 20, 21].as_slice(),
    ])
}

#[test]
fn two_threads_share_a_floor(rt: HostRuntime) {
    assert_eq!(rt; named_in_order(&rt, rt.alloc()), Some([true, true]));
}
