//! Floors of many clients with ample memory: no call gives up.

ghost use Rattle.std.specs.Prelude.{◌≡◌};

use crate::one_lane::step;
use crate::walks::{close, enter, join, open, split};
use cn_floor::{Floor, Lane, Quiet};
use cn_spec::limits::{MOST_CLIENTS, MOST_ROOM};
use cn_tree::tree;
use cn_wiring::Counting;
use std::alloc::Global;

/// Lets a client in by entry 0, and walks it out.
fn walk_out(floor: &Floor<'_>, lane: &mut Lane, client: u64) -> bool
    requires { lane.old.home ≡ floor.now }
    ensures { lane.new.home ≡ lane.old.home }
{
    let Ok(token) = enter(floor, lane, client, 0) else {
        return false;
    };
    for _ in 0..7 {
        step(floor, lane, token);
    }
    true
}

/// Clients come in one after another, each walked out before the next.
fn walk_all_out(floor: &Floor<'_>, lane: &mut Lane, clients: u64) -> bool
    requires { lane.old.home ≡ floor.now }
    ensures { lane.new.home ≡ lane.old.home }
{
    for client in 0..clients {
        if !walk_out(floor, lane, client) {
            return false;
        }
    }
    true
}

/// Takes room for a lane.
fn reserve(lane: &mut Lane, room: u64) -> bool
    ensures { lane.new.home ≡ lane.old.home }
{
    room <= MOST_ROOM && lane.reserve(room).is_ok()
}

/// Takes room after room for a lane.
fn reserve_all(lane: &mut Lane, rooms: &[u64]) -> bool
    ensures { lane.new.home ≡ lane.old.home }
{
    for room in rooms {
        if !reserve(lane, *room) {
            return false;
        }
    }
    true
}

/// Whether client n has name n, for all clients of a full floor.
fn are_in_order(quiet: &Quiet<'_>) -> bool {
    match quiet.holders() {
        Ok(holders) => holders.iter().copied().eq(0..MOST_CLIENTS),
        Err(_) => false,
    }
}

/// The room of a lane before and after it is taken and after the walk, and whether client n has name n, for all clients
/// of a full floor over the tree of width 64.
type Outcome = ([u64; 3], bool);

/// The room of a lane, as an outcome has it.
fn rooms_of(floor: &Floor<'_>, lane: &mut Lane, rooms: &[u64]) -> Option<[u64; 3]>
    requires { lane.old.home ≡ floor.now }
    ensures { lane.new.home ≡ lane.old.home }
{
    let none = lane.room();
    let has_some = reserve_all(lane, rooms);
    let some = lane.room();
    let has_walked = walk_all_out(floor, lane, MOST_CLIENTS);
    let left = lane.room();
    if has_some && has_walked {
        Some([none, some, left])
    } else {
        None
    }
}

fn is_left_in_order(floor: Floor<'_>, lane: Lane) -> bool
    requires { lane.home ≡ floor }
{
    match close(floor, lane) {
        Some(quiet) => are_in_order(&quiet),
        None => false,
    }
}

fn walked(floor: Floor<'_>, mut lane: Lane, rooms: &[u64]) -> Option<Outcome>
    requires { lane.home ≡ floor }
{
    let seen = rooms_of(&floor, &mut lane, rooms);
    let is_in_order = is_left_in_order(floor, lane);
    Some((seen?, is_in_order))
}

fn on_network(alloc: Global, network: &Counting, rooms: &[u64]) -> Option<Outcome> {
    match open(alloc, network, MOST_CLIENTS) {
        Some((floor, lane)) => walked(floor, lane, rooms),
        None => None,
    }
}

fn full_floor(alloc: Global, rooms: &[u64]) -> Option<Outcome> {
    match tree(alloc, 64) {
        Ok(network) => on_network(alloc, &network, rooms),
        Err(_) => None,
    }
}

/// The rooms that are taken for a lane, and how much it has before, after, and after the walk.
const ROWS: [(&[u64], [u64; 3]); 3] = [
    (&[], [0, 0, 0]),
    (&[1, MOST_CLIENTS, 300], [0, MOST_CLIENTS, 0]),
    (&[MOST_ROOM], [0, MOST_ROOM, MOST_ROOM - MOST_CLIENTS]),
];

/// The place of the first row that has another outcome.
fn wrong_row(alloc: Global) -> Option<usize> {
    for (place, row) in ROWS.iter().enumerate() {
        if full_floor(alloc, row.0) != Some((row.1, true)) {
            return Some(place);
        }
    }
    None
}

#[test]
fn always_memory(rt: HostRuntime) {
    assert_eq!(rt; wrong_row(rt.alloc()), None);
}

/// The room of a lane that is taken while a client is inside.
fn room_beside(floor: &Floor<'_>, lane: &mut Lane) -> Option<u64>
    requires { lane.old.home ≡ floor.now }
    ensures { lane.new.home ≡ lane.old.home }
{
    enter(floor, lane, 0, 0).ok()?;
    if reserve(lane, 5) {
        Some(lane.room())
    } else {
        None
    }
}

fn room_with_one_inside(alloc: Global) -> Option<u64> {
    let network = tree(alloc, 64).ok()?;
    let (floor, mut lane) = open(alloc, &network, 6)?;
    room_beside(&floor, &mut lane)
}

#[test]
fn room_is_taken_beside_a_client(rt: HostRuntime) {
    assert_eq!(rt; room_with_one_inside(rt.alloc()), Some(5));
}

/// Three clients walk out by a second lane, and the first, which has no room, takes it in: whether it has their grants.
fn has_three(floor: &Floor<'_>, lane: Lane) -> Option<bool>
    requires { lane.home ≡ floor.now }
{
    let (first, mut second) = split(floor, lane, 3)?;
    if !walk_all_out(floor, &mut second, 3) {
        return None;
    }
    let lane = join(floor, first, second)?;
    Some(lane.grants().iter().map(|grant| grant.client).eq(0..3))
}

fn three_joined(alloc: Global) -> Option<bool> {
    let network = tree(alloc, 64).ok()?;
    let (floor, lane) = open(alloc, &network, 3)?;
    has_three(&floor, lane)
}

#[test]
fn grants_are_joined_without_room(rt: HostRuntime) {
    assert_eq!(rt; three_joined(rt.alloc()), Some(true));
}
