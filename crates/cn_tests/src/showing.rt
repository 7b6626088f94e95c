//! Wirings, shown end to end by the library.

use cn_nets::Net;
use cn_renamer::show;
use cn_wiring::Kind;
use std::alloc::Global;

pub(crate) const TREE_FOUR: &[u8] = b"network tree width 4 balancers 3 depth 2\n\
      wire 0 balancer 0\n\
      wire 1 balancer 1\n\
      wire 2 balancer 2\n\
      wire 3 exit 0\n\
      wire 4 exit 2\n\
      wire 5 exit 1\n\
      wire 6 exit 3\n\
      end wires 7\n";

/// The wiring of a network, shown.
fn shown(alloc: Global, kind: Kind, width: u32) -> Option<Vec<u8>> {
    let net = Net::new(kind, width).ok()?;
    let mut written = Vec::new(alloc);
    show(alloc, &mut written, &net).ok()?;
    Some(written)
}

fn is_shown(alloc: Global, kind: Kind, width: u32, wanted: &[u8]) -> bool {
    match shown(alloc, kind, width) {
        Some(written) => written.as_slice() == wanted,
        None => false,
    }
}

#[test]
fn show_tree(rt: HostRuntime) {
    assert!(rt; is_shown(rt.alloc(), Kind::Tree, 4, TREE_FOUR));
}
