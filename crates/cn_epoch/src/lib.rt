//! One-shot renaming in epochs, one command at a time.
#![tactic(auto)]

mod epochs;
pub mod laws;

// The older names of these types: they stand in cn_ledger.
pub use cn_ledger::{Answer, Command, EpochRecord, TurnFault};
pub use epochs::Epochs;
