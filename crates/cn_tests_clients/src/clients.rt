//! Callers of cn_clients, in threads.

ghost use Rattle.std.specs.Prelude.{◌≡◌};

mod threads;

use cn_clients::{Named, name_by_two};
use cn_floor::{Floor, Lane};
use cn_tree::tree;
use std::alloc::Global;
use std::thread::Threads;

/// How many clients each thread names.
const EACH: u64 = 1000;

/// What two threads are given, each with a lane of its own.
fn named_on(
    rt: &impl Threads,
    alloc: Global,
    floor: &Floor<'_>,
    mut lane: Lane,
    clients: &[u64],
) -> Option<Named>
    requires { lane.home ≡ floor.now }
{
    let other = floor.split_off(&mut lane, EACH).ok()?;
    if lane.inside() > 0 || other.inside() > 0 {
        return None;
    }
    let (first, second) = clients.split_at_checked(EACH as usize)?;
    let (_lane, _other, named) = name_by_two(rt, alloc, floor, lane, other, first, second)?;
    Some(named)
}

/// What they are given on a tree of width 8.
fn named(rt: &impl Threads, alloc: Global) -> Option<Named> {
    let clients: Vec<u64> = Vec::from_iter(alloc, 0..2 * EACH).ok()?;
    let network = tree(alloc, 8).ok()?;
    let (floor, lane) = Floor::open(alloc, &network, 2 * EACH).ok()?;
    named_on(rt, alloc, &floor, lane, &clients)
}

/// Whether both threads were given as many names as they have clients, these are the names below their number, and all
/// clients came in.
fn are_all(alloc: Global, named: &Named) -> Option<bool> {
    let mut given = vec![in alloc; false; 2 * EACH as usize].ok()?;
    for name in named.first.iter().chain(named.second.iter()) {
        *given.get_mut(*name as usize)? = true;
    }
    let many = named.first.len() as u64 == EACH && named.second.len() as u64 == EACH;
    Some(many && given.iter().all(|is| *is) && named.entered == 2 * EACH)
}

#[test]
fn two_threads_get_all_names(rt: HostRuntime) {
    let alloc = rt.alloc();
    let all = named(&rt, alloc).and_then(|named| are_all(alloc, &named));
    assert_eq!(rt; all, Some(true));
}
