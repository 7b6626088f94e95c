//! Wirings that are read from a list of ends.

use crate::networks::table;
use cn_wiring::End::{self, Balancer, Exit};
use cn_wiring::Kind::{self, Bitonic, Periodic, Tree};
use cn_wiring::WiringFault::{Backward, ExitCount, InDegree, Length, NoSuchEnd};
use cn_wiring::{Wiring, WiringFault};
use std::alloc::{AllocError, Global};

/// Entries, exits and balancers.
pub(crate) type Sizes = [u32; 3];

/// Where each wire ends, from wire 0 up.
fn ends_of(alloc: Global, wiring: &Wiring) -> Result<Vec<End>, AllocError> {
    (0..wiring.entries() + 2 * wiring.balancers())
        .map(|wire| wiring.end(wire))
        .collect(alloc)
}

/// Whether the wiring has these sizes and these ends.
fn is_given_back(alloc: Global, wiring: &Wiring, sizes: Sizes, ends: &[End]) -> bool {
    match ends_of(alloc, wiring) {
        Ok(seen) => {
            [wiring.entries(), wiring.width(), wiring.balancers()] == sizes
                && seen.as_slice() == ends
        }
        Err(_) => false,
    }
}

/// Whether the list of ends gets this fault, and comes back with it, or gets none, and is a wiring with these ends.
pub(crate) fn is_answered(
    alloc: Global,
    sizes: Sizes,
    ends: &[End],
    wanted: Option<WiringFault>,
) -> bool {
    let [entries, width, balancers] = sizes;
    let Ok(list) = ends.to_vec(alloc) else {
        return false;
    };
    match Wiring::from_ends(alloc, entries, width, balancers, list) {
        Ok(wiring) => wanted.is_none() && is_given_back(alloc, &wiring, sizes, ends),
        Err((fault, back)) => wanted == Some(fault) && back.as_slice() == ends,
    }
}

/// Whether there is a list of ends, and it is answered so.
fn are_answered(
    alloc: Global,
    ends: Option<Vec<End>>,
    sizes: Sizes,
    wanted: Option<WiringFault>,
) -> bool {
    match ends {
        Some(ends) => is_answered(alloc, sizes, &ends, wanted),
        None => false,
    }
}

const TWO_WIDE: [End; 4] = [Balancer(0), Balancer(0), Exit(0), Exit(1)];

const REFUSALS: [(Sizes, &[End], Option<WiringFault>); 9] = [
    ([2, 2, 1], &TWO_WIDE, None),
    ([2, 2, 2], &TWO_WIDE, Some(Length)),
    (
        [2, 2, 1],
        &[Balancer(0), Balancer(1), Exit(0), Exit(1)],
        Some(NoSuchEnd(1)),
    ),
    (
        [1, 2, 1],
        &[Balancer(0), Balancer(0), Exit(0)],
        Some(Backward(1)),
    ),
    (
        [3, 3, 1],
        &[Balancer(0), Balancer(0), Balancer(0), Exit(0), Exit(1)],
        Some(InDegree(0)),
    ),
    (
        [2, 2, 1],
        &[Balancer(0), Balancer(0), Exit(0), Exit(0)],
        Some(ExitCount(0)),
    ),
    (
        [2, 2, 1],
        &[Balancer(0), Balancer(0), Balancer(0), Exit(5)],
        Some(NoSuchEnd(3)),
    ),
    (
        [2, 2, 1],
        &[Exit(0), Exit(1), Exit(0), Exit(1)],
        Some(InDegree(0)),
    ),
    ([2, 2, 0], &[Exit(1), Exit(0)], None),
];

/// The first list of the row that is not answered so.
fn wrong_refusal(alloc: Global) -> Option<&'static [End]> {
    for (sizes, ends, wanted) in &REFUSALS {
        if !is_answered(alloc, *sizes, ends, *wanted) {
            return Some(*ends);
        }
    }
    None
}

#[test]
fn wiring_refusals(rt: HostRuntime) {
    assert_eq!(rt; wrong_refusal(rt.alloc()), None);
}

const HOSTILE: [Sizes; 6] = [
    [0, 2, 0],
    [4_097, 2, 0],
    [2, 0, 1],
    [2, 4_097, 1],
    [2, 2, 65_537],
    [u32::MAX, u32::MAX, u32::MAX],
];

/// The first sizes at which an empty list of ends is not refused for its length.
fn wrong_hostile(alloc: Global) -> Option<Sizes> {
    for sizes in &HOSTILE {
        if !is_answered(alloc, *sizes, &[], Some(Length)) {
            return Some(*sizes);
        }
    }
    None
}

#[test]
fn hostile_wirings(rt: HostRuntime) {
    assert_eq!(rt; wrong_hostile(rt.alloc()), None);
}

/// A list with an end for each wire of a table of these sizes, all of them exit 0.
fn all_to_exit_zero(alloc: Global, sizes: Sizes) -> Option<Vec<End>> {
    let [entries, _, balancers] = sizes;
    if entries <= 10_000 && balancers <= 100_000 {
        vec![in alloc; Exit(0); (entries + 2 * balancers) as usize].ok()
    } else {
        None
    }
}

const LIMITS: [(Sizes, Option<WiringFault>); 9] = [
    ([1, 1, 0], None),
    ([0, 1, 0], Some(Length)),
    ([1, 0, 0], Some(Length)),
    ([4_096, 1, 0], Some(ExitCount(0))),
    ([4_097, 1, 0], Some(Length)),
    ([1, 4_096, 0], Some(ExitCount(1))),
    ([1, 4_097, 0], Some(Length)),
    ([1, 1, 65_536], Some(InDegree(0))),
    ([1, 1, 65_537], Some(Length)),
];

/// The first sizes at which such a list is not answered so.
fn wrong_limit(alloc: Global) -> Option<Sizes> {
    for (sizes, wanted) in &LIMITS {
        if !are_answered(alloc, all_to_exit_zero(alloc, *sizes), *sizes, *wanted) {
            return Some(*sizes);
        }
    }
    None
}

/// Each limit of length at its last good value, at which the next fault stands, and at its first bad one.
#[test]
fn limits_of_length(rt: HostRuntime) {
    assert_eq!(rt; wrong_limit(rt.alloc()), None);
}

fn to_exits_backwards(alloc: Global, width: u32) -> Option<Vec<End>> {
    (0..width).rev().map(Exit).collect(alloc).ok()
}

/// The largest wiring: 4,096 entries that lead to as many exits, in the other order.
#[test]
fn as_many_wires_as_can_be(rt: HostRuntime) {
    let ends = to_exits_backwards(rt.alloc(), 4_096);
    assert!(rt; are_answered(rt.alloc(), ends, [4_096, 4_096, 0], None));
}

const GIVEN_BACK: [(Kind, Sizes); 4] = [
    (Bitonic, [2, 2, 1]),
    (Bitonic, [64, 64, 672]),
    (Periodic, [64, 64, 1_152]),
    (Tree, [1, 64, 63]),
];

/// The first network whose table is not taken for a wiring.
fn wrong_table(alloc: Global) -> Option<(Kind, Sizes)> {
    for (kind, sizes) in &GIVEN_BACK {
        if !are_answered(alloc, table(alloc, *kind, sizes[1]), *sizes, None) {
            return Some((*kind, *sizes));
        }
    }
    None
}

#[test]
fn tables_are_given_back(rt: HostRuntime) {
    assert_eq!(rt; wrong_table(rt.alloc()), None);
}

/// The table of width 64 with another end of its last wire.
fn changed(alloc: Global, kind: Kind, end: End) -> Option<Vec<End>> {
    let mut ends = table(alloc, kind, 64)?;
    *ends.last_mut()? = end;
    Some(ends)
}

/// The last wire ends at the last exit. Another end of it, and the fault that is reported: another exit, no exit, and
/// the balancer of which it is an output.
const LAST_WIRES: [(Kind, Sizes, End, WiringFault); 9] = [
    (Bitonic, [64, 64, 672], Exit(62), ExitCount(62)),
    (Bitonic, [64, 64, 672], Exit(64), NoSuchEnd(1_407)),
    (Bitonic, [64, 64, 672], Balancer(671), Backward(1_407)),
    (Periodic, [64, 64, 1_152], Exit(62), ExitCount(62)),
    (Periodic, [64, 64, 1_152], Exit(64), NoSuchEnd(2_367)),
    (Periodic, [64, 64, 1_152], Balancer(1_151), Backward(2_367)),
    (Tree, [1, 64, 63], Exit(61), ExitCount(61)),
    (Tree, [1, 64, 63], Exit(64), NoSuchEnd(126)),
    (Tree, [1, 64, 63], Balancer(62), Backward(126)),
];

/// The first network and end of its last wire for which another fault is reported.
fn wrong_last_end(alloc: Global) -> Option<(Kind, End)> {
    for (kind, sizes, end, wanted) in &LAST_WIRES {
        if !are_answered(alloc, changed(alloc, *kind, *end), *sizes, Some(*wanted)) {
            return Some((*kind, *end));
        }
    }
    None
}

/// A fault at the last wire is reported.
#[test]
fn faults_at_the_last_end(rt: HostRuntime) {
    assert_eq!(rt; wrong_last_end(rt.alloc()), None);
}

/// The table of width 64 and more wires.
fn with_more(alloc: Global, kind: Kind, more: &[End]) -> Option<Vec<End>> {
    let mut ends = table(alloc, kind, 64)?;
    ends.extend_from_slice(more).ok()?;
    Some(ends)
}

/// One exit more than are reached, and one balancer more than are fed.
const ONE_MORE: [(Kind, Sizes, &[End], WiringFault); 6] = [
    (Bitonic, [64, 65, 672], &[], ExitCount(64)),
    (Periodic, [64, 65, 1_152], &[], ExitCount(64)),
    (Tree, [1, 65, 63], &[], ExitCount(64)),
    (Bitonic, [64, 66, 673], &[Exit(64), Exit(65)], InDegree(672)),
    (
        Periodic,
        [64, 66, 1_153],
        &[Exit(64), Exit(65)],
        InDegree(1_152),
    ),
    (Tree, [1, 66, 64], &[Exit(64), Exit(65)], InDegree(63)),
];

/// The first network and sizes for which another fault is reported.
fn wrong_more(alloc: Global) -> Option<(Kind, Sizes)> {
    for (kind, sizes, more, wanted) in &ONE_MORE {
        if !are_answered(alloc, with_more(alloc, *kind, more), *sizes, Some(*wanted)) {
            return Some((*kind, *sizes));
        }
    }
    None
}

#[test]
fn faults_at_one_more(rt: HostRuntime) {
    assert_eq!(rt; wrong_more(rt.alloc()), None);
}
