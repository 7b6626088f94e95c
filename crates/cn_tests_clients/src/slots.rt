//! Slots that two threads fill by name, by the caller of cn_clients.

use cn_clients::{Filled, fill_by_two};
use cn_floor::Floor;
use cn_tree::tree;
use cn_wiring::Counting;
use std::alloc::Global;
use std::fs;
use std::rt::Files;
use std::sync::OnceLock;
use std::thread::Threads;

/// How many clients both threads have.
const CLIENTS: u64 = 2000;

/// How many slots there are.
const SLOTS: usize = 2100;

/// Slots that nobody filled.
fn empty_slots(alloc: Global) -> Option<Vec<OnceLock<u64>>> {
    let mut slots = Vec::with_capacity(alloc, SLOTS).ok()?;
    for _ in 0..SLOTS {
        slots.push(OnceLock::new()).ok()?;
    }
    Some(slots)
}

/// Whether each slot that was filled holds its client.
fn are_held(filled: &Vec<Filled<'_>>) -> bool {
    let mut all = true;
    for one in filled {
        all &= one.read() == one.client;
    }
    all
}

/// Two threads fill slots: whether each slot holds its client.
fn fill(
    rt: &impl Threads,
    alloc: Global,
    network: &Counting,
    first: &[u64],
    second: &[u64],
    slots: &[OnceLock<u64>],
) -> Option<bool> {
    if slots.len() != SLOTS {
        return None;
    }
    let (floor, lane) = Floor::open(alloc, network, SLOTS as u64).ok()?;
    if lane.inside() > 0 {
        return None;
    }
    let (one, two) = fill_by_two(rt, alloc, floor, lane, first, second, slots)?;
    Some(are_held(&one) && are_held(&two))
}

/// The same on a tree of width 8, with so many clients for the first thread, and the others for the second.
fn fill_on_tree(
    rt: &impl Threads,
    alloc: Global,
    first: usize,
    slots: &[OnceLock<u64>],
) -> Option<bool> {
    let network = tree(alloc, 8).ok()?;
    let clients: Vec<u64> = Vec::from_iter(alloc, 0..CLIENTS).ok()?;
    let (first, second) = clients.as_slice().split_at_checked(first)?;
    fill(rt, alloc, &network, first, second, slots)
}

/// Whether the slots that are filled are the first ones, and no others, and whether each holds its client.
fn filled(rt: &impl Threads, alloc: Global, first: usize) -> Option<[bool; 2]> {
    let slots = empty_slots(alloc)?;
    let held = fill_on_tree(rt, alloc, first, slots.as_slice())?;
    let mut are_first = true;
    for (at, slot) in slots.iter().enumerate() {
        are_first &= slot.get().is_some() == (at < CLIENTS as usize);
    }
    Some([are_first, held])
}

#[test]
fn two_threads_fill_the_first_slots(rt: HostRuntime) {
    let alloc = rt.alloc();
    let found = [
        filled(&rt, alloc, 1000),
        filled(&rt, alloc, 10),
        filled(&rt, alloc, 1990),
    ];
    assert_eq!(rt; found, [Some([true, true]); 3]);
}

/// How many processes and threads the system has started so far.
pub(crate) fn started<R: Files + AllocGlobal>(rt: &R) -> Option<u64> {
    let text = fs::read_to_string(rt, "/proc/stat").ok()?;
    for line in text.lines() {
        if let Some(number) = line.strip_prefix("processes ") {
            return number.parse().ok();
        }
    }
    None
}

/// How many threads are started for both. Others start some too: so it is the least of 200 tries.
fn threads_of<R: Threads + Files + AllocGlobal>(rt: &R, alloc: Global) -> Option<u64> {
    let mut least = u64::MAX;
    for _ in 0..200 {
        let before = started(rt)?;
        filled(rt, alloc, 1000)?;
        least = least.min(started(rt)?.saturating_sub(before));
    }
    Some(least)
}

#[test]
fn one_of_two_has_a_thread(rt: HostRuntime) {
    assert_eq!(rt; threads_of(&rt, rt.alloc()), Some(1));
}
