//! What the handles of programs in C have: lanes, takers and records of closed floors, and the places for lanes that
//! are handed back.
#![tactic(auto)]

mod handles;
mod places;

pub use handles::client::Client;
pub use handles::closing::close;
pub use handles::floor_record::{FloorRecord, RecordList};
pub use handles::grants::{Grant, copy_grants};
pub use handles::handle::Handle;
pub use handles::held::Held;
pub use handles::held_lane::HeldLane;
pub use handles::held_taker::HeldTaker;
pub use handles::joining::{hand_back, join, join_all, take_back};
pub use handles::moved::{Moved, Swept};
pub use handles::naming::{name_list, name_many, take_many};
pub use handles::opening::{open, open_after, open_takes, split, split_taker};
pub use handles::question::Question;
pub use handles::reading::{copy_list, list_size};
pub use handles::refusal::{DONE, Refusal};
