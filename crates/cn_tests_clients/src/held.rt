//! A floor that a struct keeps beside its lane and their network, and takes along into a thread.

ghost use Rattle.std.specs.Prelude.{◌≡◌};

use cn_floor::{Floor, Lane, Words};
use cn_tree::tree;
use cn_wiring::Counting;
use std::alloc::Global;
use std::sync::Arc;
use std::thread;
use std::thread::Threads;

/// Names for clients, of which nothing is borrowed.
#[derive(Drop)]
struct Pool {
    network: Arc<Counting, Global>,
    floor: Floor<'static>,
    lane: Lane,
    ghost own: { lane.home ≡ floor },
}

/// Names a client, if nobody of the lane is inside.
fn name(floor: &Floor<'_>, lane: &mut Lane, client: u64) -> Option<u64>
    requires { lane.old.home ≡ floor.now }
    ensures { lane.new.home ≡ lane.old.home }
{
    if lane.inside() > 0 {
        return None;
    }
    floor.name(lane, client, 0).ok()
}

impl Pool {
    /// A pool of this many names on a tree of width 4.
    fn open(alloc: Global, quota: u64) -> Option<Pool> {
        let network = Arc::new(alloc, tree(alloc, 4).ok()?).ok()?;
        let words = Words::zero_shared(alloc, &network).ok()?;
        let (floor, lane) = Floor::open_words(alloc, words, quota).ok()?;
        Some(Pool {
            network,
            floor,
            lane,
        })
    }

    /// The names of three clients, and the holders of all names once the floor is closed. The floor keeps the network
    /// when the pool lets it go.
    fn name_three(self) -> Option<([u64; 3], Vec<u64>)> {
        let Pool {
            network,
            floor,
            mut lane,
            ..
        } = self;
        drop(network);
        let names = [
            name(&floor, &mut lane, 30)?,
            name(&floor, &mut lane, 10)?,
            name(&floor, &mut lane, 20)?,
        ];
        let quiet = floor.close(lane).ok()?;
        Some((names, quiet.holders().ok()?))
    }
}

/// A pool is made here, and used in a thread.
fn named_elsewhere(rt: &impl Threads, alloc: Global) -> Option<([u64; 3], Vec<u64>)> {
    let pool = Pool::open(alloc, 3)?;
    let child = thread::spawn(rt, move || pool.name_three()).ok()?;
    child.join(rt)
}

#[test]
fn a_pool_goes_into_a_thread(rt: HostRuntime) {
    let wanted = vec![in rt.alloc(); 30, 10, 20];
    assert_eq!(rt;
        named_elsewhere(&rt, rt.alloc()),
        wanted.ok().map(|holders| ([0, 1, 2], holders))
    );
}
