//! What has come in, gone by, left and been given on a network, and what holds of it; and what is asked of the
//! service in epochs, and what it answers.
#![tactic(auto)]

mod answer;
mod client;
mod command;
pub mod laws;
mod moved;
mod record;
mod reply;

pub use answer::{Answer, TurnFault};
pub use client::Client;
pub use command::Command;
pub use moved::Moved;
pub use record::EpochRecord;
pub use reply::{EnterFault, Reply, StepFault};
