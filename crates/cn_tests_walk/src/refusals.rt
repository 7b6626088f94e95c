//! What a floor refuses, and that it leaves the lane as it was.

ghost use Rattle.std.specs.Prelude.{◌≡◌, IfSome};

use crate::one_lane::step;
use crate::walks::{close, enter, open};
use cn_bitonic::bitonic;
use cn_floor::{CloseFault, Floor, Lane, LaneFault, OpenFault, Quiet};
use cn_ledger::Moved;
use cn_yard::Token;
use std::alloc::Global;
use std::test::Fail;

/// What a lane says of itself.
#[derive(Clone, Copy, Debug, PartialEq, Eq)]
struct Said {
    quota: u64,
    room: u64,
    inside: u64,
    grants: usize,
    lowest: Option<u32>,
}

fn inside_of(lane: &Lane) -> u64 {
    lane.inside()
}

fn lowest_of(lane: &Lane) -> Option<u32> {
    lane.lowest()
}

fn readings(lane: &Lane) -> Said {
    Said {
        quota: lane.quota(),
        room: lane.room(),
        inside: inside_of(lane),
        grants: lane.grants().len(),
        lowest: lowest_of(lane),
    }
}

/// What a client meets that comes in on a floor of its own, with a close before its first step, and one after its last.
#[derive(Clone, Copy, Debug, PartialEq, Eq)]
struct Outcome {
    before: Said,
    entered: Said,
    refused: [Option<LaneFault>; 2],
    still: Said,
    moves: [Option<Moved>; 2],
    counts: [u64; 2],
    passes: u64,
    grants: usize,
}

/// A close that is refused since tokens are inside gives back floor and lane.
fn not_closed<'a>(floor: Floor<'a>, lane: Lane) -> Option<(Floor<'a>, Lane)>
    requires { lane.home ≡ floor }
    ensures { IfSome result (λ r. r.1.home ≡ r.0) }
{
    match floor.close(lane) {
        Err(CloseFault::StillWalking(floor, lane)) => Some((floor, lane)),
        _ => None,
    }
}

/// The counts, the passes and the number of grants of a closed floor.
type Left = ([u64; 2], u64, usize);

fn left_by(quiet: &Quiet<'_>) -> Option<Left> {
    let [first, second] = quiet.counts() else {
        return None;
    };
    let [passes] = quiet.passes() else {
        return None;
    };
    Some(([*first, *second], *passes, quiet.grants().len()))
}

/// What a lane says before a client comes in and after, its token, and what others are refused with.
type Entered = ([Said; 2], Token, [Option<LaneFault>; 2]);

fn let_in(floor: &Floor<'_>, lane: &mut Lane) -> Option<Entered>
    requires { lane.old.home ≡ floor.now }
    ensures { lane.new.home ≡ lane.old.home }
{
    let before = readings(lane);
    let token = enter(floor, lane, 7, 0).ok()?;
    let entered = readings(lane);
    let refused = [
        enter(floor, lane, 8, 2).err(),
        enter(floor, lane, 8, 1).err(),
    ];
    Some(([before, entered], token, refused))
}

/// What a lane says, and then the last two steps of its token.
fn let_out(floor: &Floor<'_>, lane: &mut Lane, token: Token) -> (Said, [Option<Moved>; 2])
    requires { lane.old.home ≡ floor.now }
    ensures { lane.new.home ≡ lane.old.home }
{
    let still = readings(lane);
    (still, [step(floor, lane, token), step(floor, lane, token)])
}

/// What follows a close that is refused: what the lane says then, the last two steps, and what the floor leaves.
type Ended = (Said, [Option<Moved>; 2], Left);

/// The token walks out, and the floor is closed.
fn ended(floor: Floor<'_>, mut lane: Lane, token: Token) -> Option<Ended>
    requires { lane.home ≡ floor }
{
    let (still, moves) = let_out(&floor, &mut lane, token);
    match close(floor, lane) {
        Some(quiet) => Some((still, moves, left_by(&quiet)?)),
        None => None,
    }
}

fn refused_and_ended(floor: Floor<'_>, lane: Lane, token: Token) -> Option<Ended>
    requires { lane.home ≡ floor }
{
    match not_closed(floor, lane) {
        Some((floor, lane)) => ended(floor, lane, token),
        None => None,
    }
}

/// A client comes in, and no other.
fn walked(floor: Floor<'_>, mut lane: Lane) -> Option<Outcome>
    requires { lane.home ≡ floor }
{
    let ([before, entered], token, refused) = let_in(&floor, &mut lane)?;
    let (still, moves, (counts, passes, grants)) = refused_and_ended(floor, lane, token)?;
    Some(Outcome {
        before,
        entered,
        refused,
        still,
        moves,
        counts,
        passes,
        grants,
    })
}

fn alone(alloc: Global) -> Option<Outcome> {
    let network = bitonic(alloc, 2).ok()?;
    let (floor, lane) = open(alloc, &network, 1)?;
    walked(floor, lane)
}

#[test]
fn lane_refusals(rt: HostRuntime) -> Result<(), Fail> {
    let entered = Said {
        quota: 0,
        room: 0,
        inside: 1,
        grants: 0,
        lowest: Some(0),
    };
    let wanted = Outcome {
        before: Said {
            quota: 1,
            inside: 0,
            lowest: None,
            ..entered
        },
        entered,
        refused: [Some(LaneFault::NoSuchEntry), Some(LaneFault::QuotaSpent)],
        still: entered,
        moves: [
            Some(Moved::On {
                balancer: 0,
                number: 0,
                wire: 2,
            }),
            Some(Moved::Out {
                exit: 0,
                visit: 0,
                name: 0,
            }),
        ],
        counts: [1, 0],
        passes: 1,
        grants: 1,
    };
    assert_eq!(rt; alone(rt.alloc()), Some(wanted));
    Ok(())
}

/// Why a floor with this quota is not opened.
fn open_refusal(alloc: Global, quota: u64) -> Option<OpenFault> {
    let network = bitonic(alloc, 2).ok()?;
    Floor::open(alloc, &network, quota).err()
}

#[test]
fn too_much_quota(rt: HostRuntime) -> Result<(), Fail> {
    let faults = [0, 262_144, 262_145].map(|quota| open_refusal(rt.alloc(), quota));
    assert_eq!(rt; faults, [None, None, Some(OpenFault::Quota)]);
    Ok(())
}
