//! A counting network on atomic words, which lanes share: the floor of a walk.
#![tactic(auto)]

mod fault;
mod floor;
mod gate;
pub mod laws;
mod view;

pub use fault::{JoinFault, LaneFault, OpenFault, SplitFault};
pub use floor::{
    CloseFault, ClosedFloor, Floor, Lane, Leftovers, Post, Quiet, Receipts, SharedFloor, Walk,
    Words, walk_one,
};
pub use gate::{Gate, Moment, NoPause, OpenGate, Pause};
pub use view::{Grant, Opening, Passage, Start, Sweep, View};
