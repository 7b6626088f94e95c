//! Two threads name clients on one floor. Before it is closed each client has a name, no name is given twice, and each
//! is below the number of clients that came in.

ghost use Rattle.std.specs.Prelude.{◌≡◌, ◌<◌, ◌≤◌, All, IfSome, length};
ghost use Rattle.cn_yard.specs.Lists.{tokens_in};
ghost use Rattle.cn_floor.specs.Together.{StoodAsOne};
ghost use Rattle.cn_clients.specs.Naming.{AreDistinct, GaveNames};
ghost use denote.Param.Send.{IsSync};

use cn_floor::{Floor, Lane, SharedFloor};
use std::alloc::Global;
use std::thread;
use std::thread::Threads;

/// Names clients one after the other, each by entry 0: the lane, and the names. `None` if one is refused.
fn name_all(
    alloc: Global,
    floor: &Floor<'_>,
    mut lane: Lane,
    clients: &[u64],
) -> Option<(Lane, Vec<u64>)>
    requires own { lane.home ≡ floor.now }
    requires out { tokens_in lane.yard.lists ≡ 0 }
    ensures { IfSome result (λ r. GaveNames lane r.0 clients.now r.1.items) }
{
    let mut names = Vec::new(alloc);
    for client in clients {
        let Ok(name) = floor.name(&mut lane, *client, 0) else {
            return None;
        };
        let Ok(()) = names.push(name) else {
            return None;
        };
    }
    Some((lane, names))
}

/// Two threads name their clients, each by a lane of its own: the lanes, and the names. `None` if a client is refused,
/// or the lists get no memory.
fn name_in_threads<G: SharedFloor + Sync, R: Threads>(
    rt: &R,
    alloc: Global,
    floor: &G,
    lane: Lane,
    other: Lane,
    first: &[u64],
    second: &[u64],
) -> Option<(Lane, Lane, Vec<u64>, Vec<u64>)>
    requires own { (lane.home ≡ G.home floor.now) × (other.home ≡ G.home floor.now) }
    requires out { (tokens_in lane.yard.lists ≡ 0) × (tokens_in other.yard.lists ≡ 0) }
    ensures { IfSome result (λ r. GaveNames lane r.0 first.now r.2.items
        × GaveNames other r.1 second.now r.3.items) }
{
    let (one, two) = thread::join(
        rt,
        move || -> Option<(Lane, Vec<u64>)>
            requires { (lane.home ≡ G.home floor.now) × (tokens_in lane.yard.lists ≡ 0) }
        { name_all(alloc, floor.floor(), lane, first) },
        move || -> Option<(Lane, Vec<u64>)>
            requires { (other.home ≡ G.home floor.now) × (tokens_in other.yard.lists ≡ 0) }
        { name_all(alloc, floor.floor(), other, second) },
    );
    let (lane, first) = one?;
    let (other, second) = two?;
    Some((lane, other, first, second))
}

/// What two threads were given, before the floor is closed.
#[derive(Drop)]
pub struct Named {
    /// The names of the first thread's clients, in their order.
    pub first: Vec<u64>,
    /// The names of the second thread's clients, in their order.
    pub second: Vec<u64>,
    /// How many clients came in, as far as these lanes can see.
    pub entered: u64,
}

/// Two threads name clients at once, each by a lane of its own: the lanes, and what their clients were given. The floor
/// is still open, and these lanes and others may go on; each later answer of either of how many came in is no less than
/// `entered`. `None` if a client is refused, or memory.
pub fn name_by_two<R: Threads>(
    rt: &R,
    alloc: Global,
    floor: &Floor<'_>,
    lane: Lane,
    other: Lane,
    first: &[u64],
    second: &[u64],
) -> Option<(Lane, Lane, Named)>
    requires own { (lane.home ≡ floor.now) × (other.home ≡ floor.now) }
    requires out { (tokens_in lane.yard.lists ≡ 0) × (tokens_in other.yard.lists ≡ 0) }
    ensures many { IfSome result (λ r. (length r.2.first.items ≡ length first.now)
        × (length r.2.second.items ≡ length second.now)) }
    ensures all { IfSome result (λ r. GaveNames lane r.0 first.now r.2.first.items
        × GaveNames other r.1 second.now r.2.second.items) }
    ensures differ { IfSome result (λ r. AreDistinct r.2.first.items r.2.second.items) }
    ensures low { IfSome result (λ r. All (λ name. name < r.2.entered) r.2.first.items
        × All (λ name. name < r.2.entered) r.2.second.items) }
    ensures few { IfSome result (λ r. r.2.entered ≤ floor.now.start.quota) }
    ensures in_state { IfSome result (λ r. StoodAsOne floor.now.start r.0.view r.1.view r.2.entered) }
    ensures later { IfSome result (λ r. (r.0.view.seen ≡ r.2.entered) × (r.1.view.seen ≡ r.2.entered)) }
{
    let named = name_in_threads(rt, alloc, floor, lane, other, first, second);
    let (lane, other, first, second) = named?;
    let (lane, other, entered) = floor.look_at_both(lane, other);
    let named = Named {
        first,
        second,
        entered,
    };
    Some((lane, other, named))
}
