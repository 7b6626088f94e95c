//! What the jobs of the program read and write: schedules, batches and lists of grants, the texts of its jobs, and the
//! loop that writes a text.
#![tactic(auto)]

mod grants;
pub mod parts;
mod reading;
mod writing;

pub use grants::{Flaw, NamedEpoch, named_grants_within, write_grants, write_tight};
pub use reading::{
    Batch, BatchCause, BatchEpoch, BatchFault, Bounds, ScheduleCause, ScheduleFault,
    read_batch_within, read_schedule,
};
pub use writing::{EmitFault, OpenEpoch, Pieces, emit, write_replay, write_report, write_wiring};
