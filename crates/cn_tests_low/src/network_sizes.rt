//! The sizes of the networks, and the widths at which they are built.

use crate::networks::built;
use cn_wiring::Kind::{self, Bitonic, Periodic, Tree};
use cn_wiring::{BuildFault, is_width};
use std::alloc::Global;

/// The kind of a network, its entries, exits and balancers, and its depth.
type Sizes = (Kind, [u32; 3], u32);

fn sizes(alloc: Global, kind: Kind, width: u32) -> Result<Sizes, BuildFault> {
    let network = built(alloc, kind, width)?;
    Ok((
        network.kind(),
        [network.entries(), network.width(), network.balancers()],
        network.depth(),
    ))
}

/// The sizes of the networks of each width.
const EIGHT_WIDTHS: [Sizes; 24] = [
    (Bitonic, [2, 2, 1], 1),
    (Periodic, [2, 2, 1], 1),
    (Tree, [1, 2, 1], 1),
    (Bitonic, [4, 4, 6], 3),
    (Periodic, [4, 4, 8], 4),
    (Tree, [1, 4, 3], 2),
    (Bitonic, [8, 8, 24], 6),
    (Periodic, [8, 8, 36], 9),
    (Tree, [1, 8, 7], 3),
    (Bitonic, [16, 16, 80], 10),
    (Periodic, [16, 16, 128], 16),
    (Tree, [1, 16, 15], 4),
    (Bitonic, [32, 32, 240], 15),
    (Periodic, [32, 32, 400], 25),
    (Tree, [1, 32, 31], 5),
    (Bitonic, [64, 64, 672], 21),
    (Periodic, [64, 64, 1_152], 36),
    (Tree, [1, 64, 63], 6),
    (Bitonic, [128, 128, 1_792], 28),
    (Periodic, [128, 128, 3_136], 49),
    (Tree, [1, 128, 127], 7),
    (Bitonic, [256, 256, 4_608], 36),
    (Periodic, [256, 256, 8_192], 64),
    (Tree, [1, 256, 255], 8),
];

/// The first network, by its kind and width, with other sizes.
fn wrong_sizes(alloc: Global) -> Option<(Kind, u32)> {
    for (kind, wires, depth) in &EIGHT_WIDTHS {
        let width = wires[1];
        if sizes(alloc, *kind, width) != Ok((*kind, *wires, *depth)) {
            return Some((*kind, width));
        }
    }
    None
}

#[test]
fn eight_widths(rt: HostRuntime) {
    assert_eq!(rt; wrong_sizes(rt.alloc()), None);
}

/// The first of other widths at which a network of a kind is not refused for its width.
fn built_at(alloc: Global, kind: Kind) -> Option<u32> {
    for width in [0, 1, 3, 63, 65, 255, 257, 512, u32::MAX] {
        if sizes(alloc, kind, width) != Err(BuildFault::Width) {
            return Some(width);
        }
    }
    None
}

#[test]
fn other_widths(rt: HostRuntime) {
    let built = [Bitonic, Periodic, Tree].map(|kind| built_at(rt.alloc(), kind));
    assert_eq!(rt; built, [None, None, None]);
}

#[test]
fn widths(rt: HostRuntime) {
    for width in 0..600 {
        assert_eq!(rt;
            is_width(width),
            [2, 4, 8, 16, 32, 64, 128, 256].contains(&width)
        );
    }
    assert!(rt; !is_width(u32::MAX));
}
