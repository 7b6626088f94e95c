//! The tables of the networks.

use cn_bitonic::bitonic;
use cn_periodic::periodic;
use cn_tree::tree;
use cn_wiring::End::{self, Balancer, Exit};
use cn_wiring::Kind::{self, Bitonic, Periodic, Tree};
use cn_wiring::{BuildFault, Counting};
use std::alloc::{AllocError, Global};

/// The network of a kind and a width.
pub(crate) fn built(alloc: Global, kind: Kind, width: u32) -> Result<Counting, BuildFault> {
    match kind {
        Bitonic => bitonic(alloc, width),
        Periodic => periodic(alloc, width),
        Tree => tree(alloc, width),
    }
}

/// Where each wire of a network ends, from wire 0 up.
fn ends_of(alloc: Global, network: &Counting) -> Result<Vec<End>, AllocError> {
    (0..network.entries() + 2 * network.balancers())
        .map(|wire| network.end(wire))
        .collect(alloc)
}

/// The table of the network of a kind and a width.
pub(crate) fn table(alloc: Global, kind: Kind, width: u32) -> Option<Vec<End>> {
    let network = built(alloc, kind, width).ok()?;
    ends_of(alloc, &network).ok()
}

/// Whether a network's table is this.
fn is_table(alloc: Global, kind: Kind, width: u32, wanted: &[End]) -> bool {
    match table(alloc, kind, width) {
        Some(ends) => ends.as_slice() == wanted,
        None => false,
    }
}

const JOINED_TWO: [End; 4] = [Balancer(0), Balancer(0), Exit(0), Exit(1)];

const BITONIC_FOUR: [End; 16] = [
    Balancer(0),
    Balancer(0),
    Balancer(1),
    Balancer(1),
    Balancer(2),
    Balancer(3),
    Balancer(3),
    Balancer(2),
    Balancer(4),
    Balancer(5),
    Balancer(4),
    Balancer(5),
    Exit(0),
    Exit(1),
    Exit(2),
    Exit(3),
];

const PERIODIC_FOUR: [End; 20] = [
    Balancer(0),
    Balancer(1),
    Balancer(1),
    Balancer(0),
    Balancer(2),
    Balancer(3),
    Balancer(2),
    Balancer(3),
    Balancer(4),
    Balancer(5),
    Balancer(5),
    Balancer(4),
    Balancer(6),
    Balancer(7),
    Balancer(6),
    Balancer(7),
    Exit(0),
    Exit(1),
    Exit(2),
    Exit(3),
];

const TREE_FOUR: [End; 7] = [
    Balancer(0),
    Balancer(1),
    Balancer(2),
    Exit(0),
    Exit(2),
    Exit(1),
    Exit(3),
];

/// Balancers 1 to 3 are the tree on output 0 of the root, and balancers 4 to 6 the tree on its output 1.
const TREE_EIGHT: [End; 15] = [
    Balancer(0),
    Balancer(1),
    Balancer(4),
    Balancer(2),
    Balancer(3),
    Exit(0),
    Exit(4),
    Exit(2),
    Exit(6),
    Balancer(5),
    Balancer(6),
    Exit(1),
    Exit(5),
    Exit(3),
    Exit(7),
];

const TABLES: [(Kind, u32, &[End]); 7] = [
    (Bitonic, 2, &JOINED_TWO),
    (Periodic, 2, &JOINED_TWO),
    (Tree, 2, &[Balancer(0), Exit(0), Exit(1)]),
    (Bitonic, 4, &BITONIC_FOUR),
    (Periodic, 4, &PERIODIC_FOUR),
    (Tree, 4, &TREE_FOUR),
    (Tree, 8, &TREE_EIGHT),
];

/// The first network whose table is another.
fn wrong_table(alloc: Global) -> Option<(Kind, u32)> {
    for (kind, width, wanted) in &TABLES {
        if !is_table(alloc, *kind, *width, wanted) {
            return Some((*kind, *width));
        }
    }
    None
}

#[test]
fn tables_wire_by_wire(rt: HostRuntime) {
    assert_eq!(rt; wrong_table(rt.alloc()), None);
}

/// Whether both wires end at the balancer.
fn is_joined(ends: &[End], balancer: u32, first: usize, second: usize) -> bool {
    let wanted = Some(&Balancer(balancer));
    ends.get(first) == wanted && ends.get(second) == wanted
}

/// The first of these balancers that does not join its two wires.
fn astray(ends: &[End], joins: &[(u32, usize, usize)]) -> Option<u32> {
    for (balancer, first, second) in joins {
        if !is_joined(ends, *balancer, *first, *second) {
            return Some(*balancer);
        }
    }
    None
}

/// Of the network of width 8, the first balancer that does not join its two wires, and whether the wires from this one
/// on are those of the exits.
fn seen_of_eight(
    alloc: Global,
    kind: Kind,
    joins: &[(u32, usize, usize)],
    exits: usize,
) -> Option<(Option<u32>, bool)> {
    let ends = table(alloc, kind, 8)?;
    let last = ends.get(exits..)?;
    Some((astray(&ends, joins), last == EIGHT_EXITS.as_slice()))
}

const EIGHT_EXITS: [End; 8] = [
    Exit(0),
    Exit(1),
    Exit(2),
    Exit(3),
    Exit(4),
    Exit(5),
    Exit(6),
    Exit(7),
];

/// Balancers 0 to 5 are the network over entries 0 to 3, with the outputs 16 to 19; balancers 6 to 11 are that over
/// entries 4 to 7, with the outputs 28 to 31.
const MERGER_OF_EIGHT: [(u32, usize, usize); 12] = [
    (12, 16, 31),
    (13, 18, 29),
    (14, 32, 34),
    (15, 33, 35),
    (16, 17, 30),
    (17, 19, 28),
    (18, 40, 42),
    (19, 41, 43),
    (20, 36, 44),
    (21, 37, 45),
    (22, 38, 46),
    (23, 39, 47),
];

#[test]
fn merger_of_width_eight(rt: HostRuntime) {
    let seen = seen_of_eight(rt.alloc(), Bitonic, &MERGER_OF_EIGHT, 48);
    assert_eq!(rt; seen, Some((None, true)));
}

/// Balancers 0 to 11 are the first block, with the outputs 24 to 31, over which the second block begins. The last layer
/// of the third gives the exits.
const BLOCK_OF_EIGHT: [(u32, usize, usize); 16] = [
    (0, 0, 7),
    (1, 3, 4),
    (2, 8, 10),
    (3, 9, 11),
    (4, 1, 6),
    (5, 2, 5),
    (6, 16, 18),
    (7, 17, 19),
    (8, 12, 20),
    (9, 13, 21),
    (10, 14, 22),
    (11, 15, 23),
    (12, 24, 31),
    (13, 27, 28),
    (16, 25, 30),
    (17, 26, 29),
];

#[test]
fn first_block_of_width_eight(rt: HostRuntime) {
    let seen = seen_of_eight(rt.alloc(), Periodic, &BLOCK_OF_EIGHT, 72);
    assert_eq!(rt; seen, Some((None, true)));
}
