//! The caller of the page of cn_lists.

ghost use Rattle.std.specs.Prelude.{◌≡◌, ◌<◌, IfSome};

use cn_floor::{Floor, Words};
use cn_lists::{Taker, open_for_takers, split_off_taker, take};
use cn_spec::limits::MOST_TAKEN;
use cn_tree::tree;
use std::alloc::Global;

/// How many names the second taker may take.
const SOME: u64 = 1 << 32;

/// The next name of a taker, which is below the floor's quota.
pub fn next_name(floor: &Floor<'_>, taker: &mut Taker) -> Option<u64>
    requires { taker.old.home ≡ floor.now }
    ensures home { taker.new.home ≡ taker.old.home }
    ensures low { IfSome result (λ name. name < floor.now.start.quota) }
{
    take(floor, taker, 0).ok()
}

/// A name by each of two takers, on a floor for as many names as may be.
pub fn two_names(alloc: Global) -> Option<(u64, u64)> {
    let network = tree(alloc, 8).ok()?;
    let words = Words::zero(alloc, &network).ok()?;
    let (floor, mut taker) = open_for_takers(alloc, words, MOST_TAKEN).ok()?;
    let mut other = split_off_taker(&floor, &mut taker, SOME).ok()?;
    let first = next_name(&floor, &mut taker)?;
    let second = next_name(&floor, &mut other)?;
    Some((first, second))
}
