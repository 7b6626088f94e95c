//! The bitonic counting network (Aspnes, Herlihy, Shavit 1994, section 3).
//!
//! [`merger`] adds a merger to a draft, over two lists of its wires; [`bitonic`] builds the whole network of a width.
#![tactic(auto)]

mod bitonic_network;
mod merging;

pub use bitonic_network::bitonic;
// The older name of this type: it stands in cn_wiring.
pub use cn_wiring::BuildFault;
pub use merging::merger;
