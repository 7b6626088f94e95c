//! How many threads name the clients of two.

use super::named;
use crate::slots::started;
use std::alloc::Global;
use std::rt::Files;
use std::thread::Threads;

/// How many threads are started for both. Others start some too: so it is the least of 200 tries.
fn threads_of<R: Threads + Files + AllocGlobal>(rt: &R, alloc: Global) -> Option<u64> {
    let mut least = u64::MAX;
    for _ in 0..200 {
        let before = started(rt)?;
        let _named = named(rt, alloc)?;
        least = least.min(started(rt)?.saturating_sub(before));
    }
    Some(least)
}

#[test]
fn one_of_two_has_a_thread(rt: HostRuntime) {
    assert_eq!(rt; threads_of(&rt, rt.alloc()), Some(1));
}
