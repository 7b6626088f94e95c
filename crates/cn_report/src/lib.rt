//! For callers in Rattle: each text in a vector, of records that have their counts; what is read that is not large;
//! what a check finds with the shares of each epoch; and the laws of what jobs read and write. It passes on what
//! [`cn_texts`] has.
#![tactic(auto)]

mod checking;
pub mod laws;
mod reading;
mod rendering;

pub use checking::{Tight, TightEpoch, check_grants, render_tight};
pub use cn_texts::{
    Batch, BatchCause, BatchEpoch, BatchFault, Bounds, EmitFault, Flaw, NamedEpoch, OpenEpoch,
    Pieces, ScheduleCause, ScheduleFault, emit, named_grants_within, read_batch_within,
    read_schedule, write_grants, write_replay, write_report, write_tight, write_wiring,
};
pub use reading::{named_grants, read_batch};
pub use rendering::{render_grants, render_replay, render_report, render_wiring};
