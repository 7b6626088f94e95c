//! Callers of a floor whose contracts say what a user wants: names that are all different while threads run, and slots
//! that no thread writes twice. Each is proved from public contracts only, and runs in threads.
#![tactic(auto)]

mod filled;
mod slots;
mod two_threads;

pub use filled::Filled;
pub use slots::fill_by_two;
pub use two_threads::{Named, name_by_two};
