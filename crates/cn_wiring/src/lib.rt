//! Drafts of networks, which are built balancer by balancer, and the widths of networks.
//!
//! A [`Draft`] is finished to a [`Wiring`] or a [`Counting`], which stand in cn_tables.
#![tactic(auto)]

mod build_fault;
mod draft;
pub mod laws;
mod row;
mod width;

pub use build_fault::BuildFault;
pub use cn_tables::{Counting, End, Kind, Wiring, WiringFault};
pub use draft::Draft;
pub use row::wires_below;
pub use width::{is_width, level_of, width_of};
