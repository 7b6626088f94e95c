//! A worker that walks its clients through one lane.

ghost use Rattle.std.specs.Prelude.{◌≡◌, ℕ, ◌+◌, ◌<◌, ◌≤◌, [], All, length, min};
ghost use Rattle.cn_yard.specs.Lists.{tokens_in};
ghost use Rattle.cn_walk.specs.Walks.{GrantsInOrder, IsSole, WalksAll, Walks, inside_by};

use cn_floor::{Floor, Gate, Lane, Moment, walk_one};
use cn_ledger::Client;
use cn_tables::End;
use std::sync::Wait;

/// Lets the clients in, one after the other; no more than `hand` are inside then. The hand is only for the proof.
fn fill_hand<'a, G: Gate, R: Wait>(
    rt: &R,
    floor: &Floor<'a>,
    lane: &mut Lane,
    clients: &[Client],
    _hand: u32,
    gate: &G,
    worker: u32,
)
    requires own { lane.old.home ≡ floor.now }
    requires entries { All (λ c. c.entry < floor.now.start.network.table.entries) clients.now }
    requires quota { length clients.now ≤ lane.old.view.quota }
    requires room { length clients.now ≤ lane.old.room }
    requires spare { length clients.now ≤ lane.old.yard.spare }
    requires hand { tokens_in lane.old.yard.lists + length clients.now ≤ _hand }
    ensures walked { Walks lane.old lane.new clients.now }
{
    floor.start_laws();
    for client in clients {
        lane.lane_laws();
        gate.before(rt, worker, Moment::Enter);
        let Ok(_token) = floor.enter(lane, client.id, client.entry) else {
            unreachable!()
        };
    }
}

/// Sweeps the lowest wire that has a token, until nobody is inside. Tokens go on to greater wires, so none stands below
/// the wire that was swept last.
fn sweep_out<'a, G: Gate, R: Wait>(
    rt: &R,
    floor: &Floor<'a>,
    lane: &mut Lane,
    gate: &G,
    worker: u32,
)
    requires own { lane.old.home ≡ floor.now }
    ensures walked { Walks lane.old lane.new [] }
    ensures out { tokens_in lane.new.yard.lists ≡ 0 }
    ensures nobody { (f : ℕ → ℕ) → inside_by f lane.new.view ≡ 0 }
{
    lane.lane_laws();
    let mut from = 0;
    while let Some(wire) = lane.lowest_from(from) {
        let moment = match floor.network().end(wire) {
            End::Balancer(_) => Moment::Pass,
            End::Exit(_) => Moment::Leave,
        };
        gate.before(rt, worker, moment);
        floor.sweep(lane, wire);
        lane.lane_laws();
        from = wire;
    }
}

/// Walks the clients through the lane, one after the other.
fn walk_each<'a, G: Gate, R: Wait>(
    rt: &R,
    floor: &Floor<'a>,
    mut lane: Lane,
    clients: &[Client],
    gate: &G,
    worker: u32,
) -> Lane
    requires own { lane.home ≡ floor.now }
    requires out { tokens_in lane.yard.lists ≡ 0 }
    requires entries { All (λ c. c.entry < floor.now.start.network.table.entries) clients.now }
    requires quota { length clients.now ≤ lane.view.quota }
    requires room { length clients.now ≤ lane.room }
    ensures walked { WalksAll lane result clients.now }
    ensures in_order { IsSole lane → GrantsInOrder lane result clients.now }
{
    floor.start_laws();
    lane.lane_laws();
    for client in clients {
        let _name = walk_one(rt, floor, &mut lane, *client, gate, worker);
        lane.lane_laws();
    }
    lane
}

/// Walks all clients through the lane, in order: the next come in until `hand` are inside or none is left; then, until
/// nobody is inside, all tokens on the lowest wire that has one go by its end in one step; and so on until no client is
/// left. It asks the gate before each of its atomic steps, in the worker's name.
///
/// Nobody is inside before; the lane's quota and room ([`Lane::room`]) are at least the number of clients, or it has
/// room for as many grants, and a free record for each who is inside at once: for that number, or `hand` if it is less.
/// Each entry is one of the network's, and `hand` is at least 1. It takes no memory and refuses nothing, but returns
/// only if the gate lets it on.
///
/// With one client in hand, in a lane that has the whole quota of its floor, the clients get the next names in their
/// order.
pub fn walk_all<'a, G: Gate, R: Wait>(
    rt: &R,
    floor: &Floor<'a>,
    mut lane: Lane,
    clients: &[Client],
    hand: u32,
    gate: &G,
    worker: u32,
) -> Lane
    requires own { lane.home ≡ floor.now }
    requires out { tokens_in lane.yard.lists ≡ 0 }
    requires entries { All (λ c. c.entry < floor.now.start.network.table.entries) clients.now }
    requires quota { length clients.now ≤ lane.view.quota }
    requires room { length clients.now ≤ lane.room }
    requires spare { min (length clients.now) hand ≤ lane.yard.spare }
    requires hand { 0 < hand }
    ensures walked { WalksAll lane result clients.now }
    ensures in_order { hand ≡ 1 → IsSole lane → GrantsInOrder lane result clients.now }
{
    if hand == 1 {
        return walk_each(rt, floor, lane, clients, gate, worker);
    }
    lane.lane_laws();
    let mut rest = clients;
    while !rest.is_empty() {
        let (next, later) = rest.split_at(rest.len().min(hand as usize));
        fill_hand(rt, floor, &mut lane, next, hand, gate, worker);
        sweep_out(rt, floor, &mut lane, gate, worker);
        rest = later;
    }
    lane
}
