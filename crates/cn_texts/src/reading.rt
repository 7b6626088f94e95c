//! What is read: the records of a text, their numbers, and the schedule or the batch that they spell.

mod batch;
mod batch_fault;
mod bounds;
mod command;
pub(crate) mod number;
pub(crate) mod records;
pub(crate) mod scatter;
mod schedule;
mod schedule_fault;
pub(crate) mod telling;

pub use batch::{Arrival, Batch, BatchEpoch, Heading, read_batch_within};
pub use batch_fault::{BatchCause, BatchFault};
pub use bounds::Bounds;
pub use schedule::read_schedule;
pub use schedule_fault::{ScheduleCause, ScheduleFault};
