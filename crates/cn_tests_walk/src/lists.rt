//! The clients of a list, named by one call.

ghost use Rattle.std.specs.Prelude.{◌≡◌};

use crate::walks::{close, open};
use cn_bitonic::bitonic;
use cn_floor::{Floor, Lane, LaneFault};
use cn_tree::tree;
use cn_wiring::Counting;
use std::alloc::Global;
use std::test::Fail;

/// Names clients of a lane with nobody inside, if it has nobody inside.
fn name_all(
    floor: &Floor<'_>,
    lane: &mut Lane,
    clients: &[u64],
    entry: u64,
    names: &mut [u64],
) -> Option<Result<(), LaneFault>>
    requires { lane.old.home ≡ floor.now }
    ensures { lane.new.home ≡ lane.old.home }
{
    if lane.inside() == 0 {
        Some(cn_lists::name_all(floor, lane, clients, entry, names))
    } else {
        None
    }
}

/// Whether the quiet floor has these counts, after a refused list by entry 8, one of eight clients, and a list of the
/// six by this entry, and each of the six has the name that stands at its place, below 6.
fn six_are_named(
    alloc: Global,
    network: &Counting,
    entry: u64,
    counts: &[u64],
) -> Option<[bool; 4]> {
    let (floor, mut lane) = open(alloc, network, 7)?;
    let six = [60, 61, 62, 63, 64, 65];
    let eight = [1, 2, 3, 4, 5, 6, 7, 8];
    let mut names = [9; 6];
    let no_entry = name_all(&floor, &mut lane, &six, 8, &mut names)? == Err(LaneFault::NoSuchEntry);
    let spent = name_all(&floor, &mut lane, &eight, entry, &mut [])? == Err(LaneFault::QuotaSpent);
    name_all(&floor, &mut lane, &six, entry, &mut names)?.ok()?;
    let quiet = close(floor, lane)?;
    let holders = quiet.holders().ok()?;
    let own = (0..6).all(|place| holders.get(names[place] as usize) == Some(&six[place]));
    Some([no_entry, spent, own, quiet.counts() == counts])
}

#[test]
fn a_list_leaves_by_each_exit_its_share(rt: HostRuntime) -> Result<(), Fail> {
    let tree = tree(rt.alloc(), 4)?;
    let found = six_are_named(rt.alloc(), &tree, 0, &[2, 2, 1, 1]);
    assert_eq!(&rt; found, Some([true; 4]));
    let bitonic = bitonic(rt.alloc(), 8)?;
    let found = six_are_named(rt.alloc(), &bitonic, 5, &[1, 1, 1, 1, 1, 1, 0, 0]);
    assert_eq!(&rt; found, Some([true; 4]));
    Ok(())
}
