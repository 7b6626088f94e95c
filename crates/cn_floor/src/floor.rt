//! A floor: a counting network on atomic words, which lanes share.

mod by_post;
mod closed_floor;
mod closing;
mod counters;
mod lane;
mod laws;
mod leftovers;
mod looking;
mod naming;
mod network_ref;
mod opening;
mod plays;
mod post;
mod quiet;
mod reading;
mod receipts;
mod shared_floor;
mod sharing;
mod stepping;
mod sweeping;
mod walking;
mod words;

ghost use Rattle.std.specs.Prelude.{◌≡◌};
ghost use Rattle.cn_tables.specs.Network.{IsNetwork};

pub use closed_floor::ClosedFloor;
pub use closing::CloseFault;
use cn_tables::Counting;
use counters::Counters;
pub use lane::Lane;
pub use leftovers::Leftovers;
pub use naming::walk_one;
use opening::{yard_for, zeros};
pub use post::Post;
pub use quiet::Quiet;
pub use receipts::Receipts;
pub use shared_floor::SharedFloor;
use std::alloc::Global;
use std::marker::Model;
pub use walking::Walk;
pub use words::Words;

/// A counting network on atomic words, which lanes share: one word for each entry, each balancer and each exit. A
/// client comes in, passes a balancer and leaves by one atomic add each, without a lock.
///
/// A lane belongs to the floor that made it, and each call has the condition that its lanes are its own. Only
/// [`Floor::open`] and its like, [`Floor::close`], [`Floor::close_for`], a [`Floor::join`], a [`Floor::name`] without
/// room, and a [`Floor::enter`] without room or a free record take memory. Lanes can be sent to threads, and a floor
/// can be shared by them.
pub struct Floor<'a> {
    alloc: Global,
    /// How many clients came before it began.
    base: u64,
    /// The words as they then were, over its network.
    before: Words<'a>,
    counters: Counters,
}

impl<'a> Model for Floor<'a> {
    ghost use Rattle.cn_floor.specs.InsideFloor.{IsFloor};
    ghost use Rattle.cn_floor.specs.Lane.{FloorValue};

    ghost Value = { FloorValue };

    ghost view = { λ f. f.counters };

    ghost invariant = { IsFloor };
}

impl<'a> Floor<'a> {
    /// The network that it was opened over.
    pub fn network(&self) -> &Counting
        ensures value { result.now ≡ self.now.start.network }
        ensures network { IsNetwork self.now.start.network }
    {
        self.before.network()
    }
}

// By hand, as that of the network that it holds: it is one call where a value is dropped.
impl Drop for Floor<'_> {
    fn drop(self) {
        let Floor {
            alloc: _alloc,
            base: _base,
            before: _before,
            counters: _counters,
        } = self;
    }
}
