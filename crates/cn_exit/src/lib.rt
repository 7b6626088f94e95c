//! The exits of a counting network: how many tokens left by each, the names that they give out, and their shares of all
//! clients.
#![tactic(auto)]

mod exits;
mod names;
mod shares;

pub use exits::{Exits, Leave};
pub use names::{Place, exit_of, name_of};
pub use shares::{expected, is_step};
