//! What is written: the text of each job, and the loop that writes it.

pub(crate) mod emitting;
mod events;
pub(crate) mod line;
pub(crate) mod outcome;
pub(crate) mod pieces;
mod replay;
pub(crate) mod report;
mod wiring;

pub use emitting::{EmitFault, emit};
pub use pieces::Pieces;
pub use replay::{OpenEpoch, write_replay};
pub use report::write_report;
pub use wiring::write_wiring;
