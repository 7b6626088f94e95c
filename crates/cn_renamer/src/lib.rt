//! The calls of the program: what each of its jobs writes.
#![tactic(auto)]

mod checking;
mod epochs;
mod fault;
mod output_fault;
mod performing;
mod replaying;
mod serve_fault;
mod serving;
mod showing;

pub use checking::{CheckFault, check, check_within};
// The older names of these: they stand in cn_cli and cn_nets.
pub use cn_cli::{Form, Job, OptionFault, Options, WordsFault, parse_words};
pub use cn_nets::{Net, NetFault};
pub use epochs::{CLIENTS_FOR_A_THREAD, workers_that_pay};
pub use fault::{Fault, RuntimeFault, end};
pub use output_fault::OutputFault;
pub use performing::{perform, run};
pub use replaying::{ReplayFault, replay};
pub use serve_fault::ServeFault;
pub use serving::{serve, serve_with_receipts};
pub use showing::{ShowFault, show};
