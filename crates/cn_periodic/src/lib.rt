//! The periodic counting network (Aspnes, Herlihy, Shavit 1994, section 4).
//!
//! [`block`] adds a block to a draft, over a list of its wires; [`periodic`] builds the whole network of a width.
#![tactic(auto)]

mod blocks;
mod periodic_network;

pub use blocks::block;
pub use periodic_network::periodic;
