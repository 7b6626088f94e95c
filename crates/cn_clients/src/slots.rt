//! Slots that threads share: a thread takes a name for its client on a floor, and writes the client into the slot of
//! that name, without a lock. No slot is written twice, and each holds the client whose name it is.

ghost use Rattle.std.specs.Prelude.{◌≡◌, ◌+◌, ◌≤◌, ◌++◌, [], IfSome, length};
ghost use Rattle.cn_spec.specs.Step.{IsEachBelow};
ghost use Rattle.cn_yard.specs.Lists.{tokens_in};
ghost use Rattle.cn_clients.specs.Slots.{AreSlotsOf, FilledBy, clients_filled, names_of};

use crate::filled::Filled;
use cn_floor::{Floor, Lane, SharedFloor};
use std::alloc::Global;
use std::sync::OnceLock;
use std::thread;
use std::thread::Threads;

/// Names clients one after the other, each by entry 0, and writes each into the slot of its name. `None` if a client is
/// refused, a list gets no memory, or a slot was written before.
fn fill_all<'s>(
    alloc: Global,
    floor: &Floor<'_>,
    mut lane: Lane,
    clients: &[u64],
    slots: &'s [OnceLock<u64>],
) -> Option<(Lane, Vec<Filled<'s>>)>
    requires own { lane.home ≡ floor.now }
    requires out { tokens_in lane.yard.lists ≡ 0 }
    requires slots { floor.now.start.quota ≤ length slots.now }
    ensures { IfSome result (λ r. FilledBy slots.now lane r.0 clients.now r.1.items) }
{
    let mut filled = Vec::new(alloc);
    for client in clients {
        let Ok(name) = floor.name(&mut lane, *client, 0) else {
            return None;
        };
        let slot = &slots[name as usize];
        let Ok(token) = slot.try_set(*client) else {
            return None;
        };
        let one = Filled {
            slot,
            token,
            name,
            client: *client,
        };
        let Ok(()) = filled.push(one) else {
            return None;
        };
    }
    Some((lane, filled))
}

/// Two threads fill slots at once, each by a lane of its own. `None` if a client is refused, a list gets no memory, or
/// a slot was written before.
fn fill_in_threads<'s, G: SharedFloor + Sync, R: Threads>(
    rt: &R,
    alloc: Global,
    floor: &G,
    lanes: (Lane, Lane),
    first: &[u64],
    second: &[u64],
    slots: &'s [OnceLock<u64>],
) -> Option<(Lane, Lane, Vec<Filled<'s>>, Vec<Filled<'s>>)>
    requires own { (lanes.0.home ≡ G.home floor.now) × (lanes.1.home ≡ G.home floor.now) }
    requires out { (tokens_in lanes.0.yard.lists ≡ 0) × (tokens_in lanes.1.yard.lists ≡ 0) }
    requires slots { (G.home floor.now).start.quota ≤ length slots.now }
    ensures { IfSome result (λ r. FilledBy slots.now lanes.0 r.0 first.now r.2.items
        × FilledBy slots.now lanes.1 r.1 second.now r.3.items) }
{
    let (lane, other) = lanes;
    let (one, two) = thread::join(
        rt,
        move || -> Option<(Lane, Vec<Filled<'_>>)>
            requires { (lane.home ≡ G.home floor.now) × (tokens_in lane.yard.lists ≡ 0)
                × ((G.home floor.now).start.quota ≤ length slots.now) }
        { fill_all(alloc, floor.floor(), lane, first, slots) },
        move || -> Option<(Lane, Vec<Filled<'_>>)>
            requires { (other.home ≡ G.home floor.now) × (tokens_in other.yard.lists ≡ 0)
                × ((G.home floor.now).start.quota ≤ length slots.now) }
        { fill_all(alloc, floor.floor(), other, second, slots) },
    );
    let (lane, first) = one?;
    let (other, second) = two?;
    Some((lane, other, first, second))
}

/// Two threads fill slots at once, on a floor that gave no name yet, and the floor is closed: the slots that each
/// filled. The second thread has as many names as it has clients. Each client fills a slot, in the order of its list.
/// The slots that were filled are the first ones, each once, and each holds the client whose name it is. `None` if a
/// client is refused, a list gets no memory, or a slot was written before.
pub fn fill_by_two<'s, R: Threads>(
    rt: &R,
    alloc: Global,
    floor: Floor<'_>,
    mut lane: Lane,
    first: &[u64],
    second: &[u64],
    slots: &'s [OnceLock<u64>],
) -> Option<(Vec<Filled<'s>>, Vec<Filled<'s>>)>
    requires own { lane.home ≡ floor }
    requires out { tokens_in lane.yard.lists ≡ 0 }
    requires fresh { lane.view.grants ≡ [] }
    requires slots { floor.start.quota ≤ length slots.now }
    ensures all { IfSome result (λ r. (clients_filled r.0.items ≡ first.now)
        × (clients_filled r.1.items ≡ second.now)) }
    ensures full { IfSome result (λ r. IsEachBelow (length r.0.items + length r.1.items)
        (names_of r.0.items ++ names_of r.1.items)) }
    ensures by_name { IfSome result (λ r. AreSlotsOf slots.now r.0.items × AreSlotsOf slots.now r.1.items) }
{
    let Ok(other) = floor.split_off(&mut lane, second.len() as u64) else {
        return None;
    };
    let filled = fill_in_threads(rt, alloc, &floor, (lane, other), first, second, slots);
    let (lane, other, one, two) = filled?;
    let Ok(lane) = floor.join(lane, other) else {
        return None;
    };
    let Ok(quiet) = floor.close(lane) else {
        return None;
    };
    quiet.quiet_laws();
    Some((one, two))
}
