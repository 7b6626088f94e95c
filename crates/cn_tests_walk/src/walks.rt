//! Calls of a floor, of which a test needs to know no more than that lanes stay on it.

ghost use Rattle.std.specs.Prelude.{◌≡◌, IfSome};

use cn_floor::{Floor, Lane, LaneFault, Quiet};
use cn_wiring::Counting;
use cn_yard::Token;
use std::alloc::Global;

/// A floor, and its one lane.
pub(crate) fn open(alloc: Global, network: &Counting, quota: u64) -> Option<(Floor<'_>, Lane)>
    ensures { IfSome result (λ r. r.1.home ≡ r.0) }
{
    match Floor::open(alloc, network, quota) {
        Ok(opened) => Some(opened),
        Err(_) => None,
    }
}

/// Lets a client in by an entry.
pub(crate) fn enter(
    floor: &Floor<'_>,
    lane: &mut Lane,
    client: u64,
    entry: u64,
) -> Result<Token, LaneFault>
    requires { lane.old.home ≡ floor.now }
    ensures { lane.new.home ≡ lane.old.home }
{
    floor.enter(lane, client, entry)
}

/// How many clients came in, as far as the lane can see.
pub(crate) fn entered(floor: &Floor<'_>, lane: &mut Lane) -> u64
    requires { lane.old.home ≡ floor.now }
    ensures { lane.new.home ≡ lane.old.home }
{
    floor.entered(lane)
}

/// Two lanes, the second with this quota.
pub(crate) fn split(floor: &Floor<'_>, lane: Lane, quota: u64) -> Option<(Lane, Lane)>
    requires { lane.home ≡ floor.now }
    ensures { IfSome result (λ r. (r.0.home ≡ floor.now) × (r.1.home ≡ floor.now)) }
{
    match floor.split(lane, quota) {
        Ok(lanes) => Some(lanes),
        Err(_) => None,
    }
}

/// The two lanes as one.
pub(crate) fn join(floor: &Floor<'_>, first: Lane, second: Lane) -> Option<Lane>
    requires { (first.home ≡ floor.now) × (second.home ≡ floor.now) }
    ensures { IfSome result (λ lane. lane.home ≡ floor.now) }
{
    match floor.join(first, second) {
        Ok(lane) => Some(lane),
        Err(_) => None,
    }
}

/// What the floor leaves.
pub(crate) fn close<'a>(floor: Floor<'a>, lane: Lane) -> Option<Quiet<'a>>
    requires { lane.home ≡ floor }
{
    match floor.close(lane) {
        Ok(quiet) => Some(quiet),
        Err(_) => None,
    }
}
