//! One-shot renaming on a counting network, one event at a time.
#![tactic(auto)]

mod clients;
mod core_state;
mod event;
pub mod laws;
mod position;

// The older names of these types: they stand in cn_ledger.
pub use cn_ledger::{Client, EnterFault, Moved, Reply, StepFault};
pub use core_state::Core;
pub use event::Event;
pub use position::Position;
