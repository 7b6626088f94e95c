//! Exits, names and shares.

use cn_exit::{Exits, Leave, Place, exit_of, expected, is_step, name_of};
use std::alloc::{AllocError, Global};

/// The share of an exit, if the numbers are not too large.
fn share(width: u32, clients: u64, exit: u32) -> Option<u64> {
    if width <= 64 && exit < width && clients <= 65_536 {
        Some(expected(width, clients, exit))
    } else {
        None
    }
}

/// Whether these are the shares of all exits, from exit 0 up.
fn are_shares(width: u32, clients: u64, counts: &[u64]) -> bool {
    for exit in 0..width {
        let count = counts.get(exit as usize).copied();
        if count.is_none() || share(width, clients, exit) != count {
            return false;
        }
    }
    counts.len() == width as usize
}

const SHARES: [(u32, u64, &[u64]); 10] = [
    (2, 0, &[0, 0]),
    (2, 1, &[1, 0]),
    (2, 7, &[4, 3]),
    (4, 0, &[0, 0, 0, 0]),
    (4, 3, &[1, 1, 1, 0]),
    (4, 4, &[1, 1, 1, 1]),
    (4, 5, &[2, 1, 1, 1]),
    (4, 8, &[2, 2, 2, 2]),
    (8, 11, &[2, 2, 2, 1, 1, 1, 1, 1]),
    (64, 65_536, &[1_024; 64]),
];

/// The first width and number of clients whose shares are others.
fn wrong_shares() -> Option<(u32, u64)> {
    for (width, clients, counts) in &SHARES {
        if !are_shares(*width, *clients, counts) {
            return Some((*width, *clients));
        }
    }
    None
}

#[test]
fn expected_counts(rt: HostRuntime) {
    assert_eq!(rt; wrong_shares(), None);
}

const STEPS: [(&[u64], bool); 6] = [
    (&[], true),
    (&[3], true),
    (&[2, 1, 1, 1], true),
    (&[1, 0, 1, 0], false),
    (&[2, 0], false),
    (&[0, 1], false),
];

/// The first counts that are taken for a step, or are not, and should be.
fn wrong_step() -> Option<&'static [u64]> {
    for (counts, wanted) in &STEPS {
        if is_step(counts) != *wanted {
            return Some(*counts);
        }
    }
    None
}

#[test]
fn steps(rt: HostRuntime) {
    assert_eq!(rt; wrong_step(), None);
}

fn two_leaves(alloc: Global) -> Result<[Leave; 2], AllocError> {
    let mut exits = Exits::new(alloc, 4)?;
    let first = exits.take(2);
    Ok([first, exits.take(2)])
}

const TWO_LEAVES: [Leave; 2] = [Leave { visit: 0, name: 2 }, Leave { visit: 1, name: 6 }];

#[test]
fn exits_and_names(rt: HostRuntime) {
    assert_eq!(rt; two_leaves(rt.alloc()), Ok(TWO_LEAVES));
    let place = Place { exit: 2, visit: 1 };
    assert_eq!(rt; (exit_of(4, 6), name_of(4, 2, 1)), (place, 6));
}

/// The width, and the counts if there are two exits.
fn seen_of(exits: &Exits) -> (u32, Option<[u64; 2]>) {
    if exits.width() == 2 {
        (2, Some([exits.count(0), exits.count(1)]))
    } else {
        (exits.width(), None)
    }
}

/// A leave, the width and counts then, and both again after the exits are cleared.
type Cleared = ([Leave; 2], [(u32, Option<[u64; 2]>); 2]);

fn cleared(alloc: Global) -> Result<Cleared, AllocError> {
    let mut exits = Exits::new(alloc, 2)?;
    let first = exits.take(1);
    let before = seen_of(&exits);
    exits.clear();
    let after = seen_of(&exits);
    Ok(([first, exits.take(1)], [before, after]))
}

const FIRST: Leave = Leave { visit: 0, name: 1 };

const CLEARED: Cleared = ([FIRST, FIRST], [(2, Some([0, 1])), (2, Some([0, 0]))]);

#[test]
fn counts_until_cleared(rt: HostRuntime) {
    assert_eq!(rt; cleared(rt.alloc()), Ok(CLEARED));
}
