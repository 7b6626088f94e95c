//! Drafts, and what builders add to them.

use cn_bitonic::merger;
use cn_periodic::block;
use cn_wiring::{Draft, End, Wiring, wires_below};
use std::alloc::{AllocError, Global};

/// Which of wires 0 to 5 are loose.
fn loose_wires(draft: &Draft) -> [bool; 6] {
    [0, 1, 2, 3, 4, 5].map(|wire| draft.is_loose(wire))
}

const FRESH: [bool; 6] = [true, true, true, false, false, false];

const JOINED: [bool; 6] = [false, true, false, true, true, false];

/// The outputs of a balancer over wires 2 and 0 of three, and which wires are loose before and after it.
type Joined = ([u32; 2], [[bool; 6]; 2]);

#[tactic(auto, unfolding(cn_spec::specs::Sums::times))]
fn joined(alloc: Global) -> Result<Joined, AllocError> {
    let mut draft = Draft::new(alloc, 3)?;
    let fresh = loose_wires(&draft);
    let (top, bottom) = draft.join(2, 0)?;
    Ok(([top, bottom], [fresh, loose_wires(&draft)]))
}

#[test]
fn joined_wires_are_not_loose(rt: HostRuntime) {
    assert_eq!(rt; joined(rt.alloc()), Ok(([3, 4], [FRESH, JOINED])));
}

/// The two outputs of an addition to three wires, and which wires are loose after it.
type Added = (Option<[u32; 2]>, [bool; 6]);

/// Two wires, if there are two.
fn pair(wires: &[u32]) -> Option<[u32; 2]> {
    match wires {
        [first, second] => Some([*first, *second]),
        _ => None,
    }
}

#[tactic(auto, unfolding(cn_spec::specs::Sums::times))]
fn merged(alloc: Global) -> Result<Added, AllocError> {
    let mut draft = Draft::new(alloc, 3)?;
    let outputs = merger(alloc, &mut draft, &[2], &[0])?;
    Ok((pair(&outputs), loose_wires(&draft)))
}

#[tactic(auto, unfolding(cn_spec::specs::Sums::times))]
fn blocked(alloc: Global) -> Result<Added, AllocError> {
    let mut draft = Draft::new(alloc, 3)?;
    let outputs = block(alloc, &mut draft, &[2, 0])?;
    Ok((pair(&outputs), loose_wires(&draft)))
}

/// The merger of two wires is one balancer.
#[test]
fn merger_of_two_wires(rt: HostRuntime) {
    assert_eq!(rt; merged(rt.alloc()), Ok((Some([3, 4]), JOINED)));
}

/// The block over two wires is one balancer.
#[test]
fn block_of_two_wires(rt: HostRuntime) {
    assert_eq!(rt; blocked(rt.alloc()), Ok((Some([3, 4]), JOINED)));
}

const NEWEST: [u32; 8] = [24, 25, 26, 27, 28, 29, 30, 31];

fn merged_eight(alloc: Global) -> Result<Vec<u32>, AllocError> {
    let mut draft = Draft::new(alloc, 8)?;
    merger(alloc, &mut draft, &[0, 1, 2, 3], &[4, 5, 6, 7])
}

fn blocked_eight(alloc: Global) -> Result<Vec<u32>, AllocError> {
    let mut draft = Draft::new(alloc, 8)?;
    block(alloc, &mut draft, &[0, 1, 2, 3, 4, 5, 6, 7])
}

/// Whether there are wires, and they are the wanted ones.
fn are(wires: Result<Vec<u32>, AllocError>, wanted: &[u32]) -> bool {
    match wires {
        Ok(wires) => wires.as_slice() == wanted,
        Err(_) => false,
    }
}

/// The merger and the block over all eight entries give the newest eight wires.
#[test]
fn eight_wires_give_the_newest(rt: HostRuntime) {
    assert!(rt; are(merged_eight(rt.alloc()), &NEWEST));
    assert!(rt; are(blocked_eight(rt.alloc()), &NEWEST));
}

/// One balancer over two entries, or over one.
fn two_wide(alloc: Global) -> Result<Wiring, AllocError> {
    let mut draft = Draft::new(alloc, 2)?;
    let (top, bottom) = draft.join(0, 1)?;
    draft.finish(&[top, bottom]).map_err(|(_, error)| error)
}

fn forked(alloc: Global) -> Result<Wiring, AllocError> {
    let mut draft = Draft::new(alloc, 1)?;
    let (top, bottom) = draft.fork(0)?;
    draft.finish(&[top, bottom]).map_err(|(_, error)| error)
}

/// Entries, exits and balancers of a wiring, and the ends of its first four wires.
type Seen = ([u32; 3], [Option<End>; 4]);

fn seen_of(wiring: &Wiring) -> Seen {
    let wires = wiring.entries() + 2 * wiring.balancers();
    let end = |wire: u32| {
        if wire < wires {
            Some(wiring.end(wire))
        } else {
            None
        }
    };
    (
        [wiring.entries(), wiring.width(), wiring.balancers()],
        [end(0), end(1), end(2), end(3)],
    )
}

/// The sizes and ends of both wirings.
fn both_seen(alloc: Global) -> Result<[Seen; 2], AllocError> {
    let joined = seen_of(&two_wide(alloc)?);
    Ok([joined, seen_of(&forked(alloc)?)])
}

const BALANCER: Option<End> = Some(End::Balancer(0));

const FIRST: Option<End> = Some(End::Exit(0));

const SECOND: Option<End> = Some(End::Exit(1));

const BOTH: [Seen; 2] = [
    ([2, 2, 1], [BALANCER, BALANCER, FIRST, SECOND]),
    ([1, 2, 1], [BALANCER, FIRST, SECOND, None]),
];

#[test]
fn width_two_wire_by_wire(rt: HostRuntime) {
    assert_eq!(rt; both_seen(rt.alloc()), Ok(BOTH));
}

#[test]
fn three_wires(rt: HostRuntime) {
    assert!(rt; are(wires_below(rt.alloc(), 3), &[0, 1, 2]));
}
