//! Clients that are named by one call, and two lanes that are looked at together.

ghost use Rattle.std.specs.Prelude.{◌≡◌};

use cn_bitonic::bitonic;
use cn_floor::{Floor, Grant, Lane, LaneFault};
use std::alloc::Global;

/// The grants of two lanes, how many came in, and why each client was refused who was.
type Outcome = (Option<Grant>, Option<Grant>, u64, [Option<LaneFault>; 2]);

/// Names a client, if nobody of the lane is inside.
fn name(
    floor: &Floor<'_>,
    lane: &mut Lane,
    client: u64,
    entry: u64,
) -> Result<u64, Option<LaneFault>>
    requires { lane.old.home ≡ floor.now }
    ensures { lane.new.home ≡ lane.old.home }
{
    if lane.inside() > 0 {
        return Err(None);
    }
    floor.name(lane, client, entry).map_err(Some)
}

/// On bitonic 2 client 7 comes in by entry 1, client 8 by entry 0, on a lane of its own; both lanes are looked at, and
/// are what they were.
fn by_two_lanes(alloc: Global) -> Option<Outcome> {
    let network = bitonic(alloc, 2).ok()?;
    let (floor, mut first) = Floor::open(alloc, &network, 2).ok()?;
    let mut second = floor.split_off(&mut first, 1).ok()?;
    let refused = name(&floor, &mut first, 9, 2).err()?;
    name(&floor, &mut first, 7, 1).ok()?;
    name(&floor, &mut second, 8, 0).ok()?;
    let spent = name(&floor, &mut second, 9, 0).err()?;
    let (first, second, entered) = floor.look_at_both(first, second);
    let one = first.grants().first().copied();
    let two = second.grants().first().copied();
    Some((one, two, entered, [refused, spent]))
}

#[test]
fn two_lanes_are_named_and_looked_at(rt: HostRuntime) {
    let first = Grant {
        client: 7,
        exit: 0,
        visit: 0,
        name: 0,
    };
    let second = Grant {
        client: 8,
        exit: 1,
        visit: 0,
        name: 1,
    };
    let faults = [Some(LaneFault::NoSuchEntry), Some(LaneFault::QuotaSpent)];
    assert_eq!(rt;
        by_two_lanes(rt.alloc()),
        Some((Some(first), Some(second), 2, faults))
    );
}
