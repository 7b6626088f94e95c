//! Networks by kind and width: the bitonic and the periodic network (Aspnes, Herlihy, Shavit, Counting Networks, JACM
//! 1994) and the counting tree (Shavit, Zemach, Diffracting Trees, TOCS 1996).
#![tactic(auto)]

pub mod laws;
mod net;

pub use net::{Net, NetFault, Widths};
