//! Names that takers take.

ghost use Rattle.std.specs.Prelude.{◌≡◌};

use cn_floor::{Floor, LaneFault, SplitFault, Words};
use cn_lists::{Taker, open_for_takers, split_off_taker, take, take_many, takes_begun};
use cn_tree::tree;
use std::alloc::Global;

/// What two takers of a floor of 7 names take: two names, a list of four, and one by the other taker; and what the
/// first is answered then.
#[derive(Clone, Copy, Debug, PartialEq, Eq)]
struct Took {
    two: (u64, u64),
    list: [u64; 4],
    other: Option<u64>,
    begun: u64,
    refused: [Option<LaneFault>; 2],
    too_small: Option<SplitFault>,
}

/// Takes two names, and a list.
fn take_six(floor: &Floor<'_>, taker: &mut Taker) -> Option<((u64, u64), [u64; 4])>
    requires { taker.old.home ≡ floor.now }
    ensures { taker.new.home ≡ taker.old.home }
{
    let two = (take(floor, taker, 0).ok()?, take(floor, taker, 0).ok()?);
    let mut list = [0; 4];
    let Ok(()) = take_many(floor, taker, 0, &mut list) else {
        return None;
    };
    list.sort_unstable();
    Some((two, list))
}

/// What a taker that has spent its quota is answered.
fn refused(floor: &Floor<'_>, taker: &mut Taker) -> [Option<LaneFault>; 2]
    requires { taker.old.home ≡ floor.now }
    ensures { taker.new.home ≡ taker.old.home }
{
    let entry = take(floor, taker, 1).err();
    let quota = take(floor, taker, 0).err();
    [entry, quota]
}

/// The seven names.
fn take_seven(floor: &Floor<'_>, mut taker: Taker) -> Option<Took>
    requires { taker.home ≡ floor.now }
{
    let (two, list) = take_six(floor, &mut taker)?;
    let Ok(mut other) = split_off_taker(floor, &mut taker, 1) else {
        return None;
    };
    let one = take(floor, &mut other, 0).ok();
    let refused = refused(floor, &mut taker);
    let too_small = split_off_taker(floor, &mut taker, 1).err();
    let begun = takes_begun(floor, &mut taker);
    Some(Took {
        two,
        list,
        other: one,
        begun,
        refused,
        too_small,
    })
}

/// What is taken on a tree of width 4.
fn taken(alloc: Global) -> Option<Took> {
    let network = tree(alloc, 4).ok()?;
    let words = Words::zero(alloc, &network).ok()?;
    let (floor, taker) = open_for_takers(alloc, words, 7).ok()?;
    take_seven(&floor, taker)
}

#[test]
fn two_takers_take_seven_names(rt: HostRuntime) {
    let took = Took {
        two: (0, 1),
        list: [2, 3, 4, 5],
        other: Some(6),
        begun: 7,
        refused: [Some(LaneFault::NoSuchEntry), Some(LaneFault::QuotaSpent)],
        too_small: Some(SplitFault::QuotaTooSmall),
    };
    assert_eq!(rt; taken(rt.alloc()), Some(took));
}
