//! Walks of clients over a floor, by many workers, and the epochs that they run.
#![tactic(auto)]

mod callers;
mod crew;
mod forking;
mod joining;
mod runner;
mod running;
mod walking;

pub use callers::{run_epoch, run_epoch_after};
// The older names of these types: they stand in cn_floor.
pub use cn_floor::{
    CloseFault, Floor, Gate, Grant, JoinFault, Lane, LaneFault, Moment, OpenFault, OpenGate, Quiet,
    SplitFault, Sweep, Words,
};
pub use crew::Crew;
pub use joining::join_mut;
pub use runner::Runner;
pub use running::RunFault;
pub use walking::walk_all;
