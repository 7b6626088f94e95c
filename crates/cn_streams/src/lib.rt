//! The words and streams of the program's process.
#![tactic(auto)]

mod retried;
mod terminal;

pub use retried::Retried;
pub use terminal::{say_input, words_of};
