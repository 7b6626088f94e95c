//! Beside a floor: clients of a list who are named together, and takers, who take names of which no list is kept.
#![tactic(auto)]

mod listed;
mod passing;
mod taker;
mod taking;

pub use listed::name_all;
pub use taker::{Taker, open_for_takers};
pub use taking::{split_off_taker, take, take_many, takes_begun};
