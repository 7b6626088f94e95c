//! The public names of the service, each by the crate that offers it to callers: a crate that no longer passes on a name
//! does not compile here. Faults and answers are matched whole, so that none has a variant more or less.

pub use cn_balancer::{Balancer, Pass, departures, output_of};
pub use cn_bitonic::{BuildFault, bitonic, merger};
pub use cn_core::{Client, Core, EnterFault, Event, Moved, Reply, StepFault};
pub use cn_epoch::{Answer, Command, EpochRecord, Epochs, TurnFault};
pub use cn_exit::{Exits, Leave, Place, exit_of, expected, is_step, name_of};
pub use cn_names::{ByNameFault, Names, NamesFault, Standing};
pub use cn_periodic::{block, periodic};
pub use cn_renamer::{
    CheckFault, Form, Job, Net, NetFault, OptionFault, Options, ReplayFault, ServeFault, ShowFault,
    WordsFault, check, parse_words, replay, serve, show,
};
pub use cn_report::{
    Batch, BatchCause, BatchEpoch, BatchFault, EmitFault, Flaw, ScheduleCause, ScheduleFault,
    Tight, TightEpoch, check_grants, emit, read_batch, read_schedule, render_grants, render_replay,
    render_report, render_tight, render_wiring,
};
pub use cn_tree::tree;
pub use cn_walk::{
    CloseFault, Floor, Gate, Grant, JoinFault, Lane, LaneFault, Moment, OpenFault, OpenGate, Quiet,
    RunFault, SplitFault, Sweep, Words, run_epoch, run_epoch_after, walk_all,
};
pub use cn_wiring::{Counting, Draft, End, Kind, Wiring, WiringFault, is_width};
pub use cn_yard::{Token, Yard};
use std::alloc::Global;
use std::io::Write;

/// The number of a fault of a wiring, in the order of their tests.
pub fn number_of_wiring_fault(fault: WiringFault) -> u8 {
    match fault {
        WiringFault::Length => 1,
        WiringFault::NoSuchEnd(_wire) => 2,
        WiringFault::Backward(_wire) => 3,
        WiringFault::InDegree(_balancer) => 4,
        WiringFault::ExitCount(_exit) => 5,
        WiringFault::Memory => 6,
    }
}

/// The number of a cause of a batch, in the order of their tests.
pub fn number_of_batch_cause(cause: BatchCause) -> u8 {
    match cause {
        BatchCause::Read => 1,
        BatchCause::Header => 2,
        BatchCause::FieldCount => 3,
        BatchCause::EpochNumber => 4,
        BatchCause::ClientNumber => 5,
        BatchCause::EntryNumber => 6,
        BatchCause::EpochBackwards => 7,
        BatchCause::EntryRange => 8,
        BatchCause::Duplicate => 9,
        BatchCause::EpochFull => 10,
        BatchCause::BatchFull => 11,
        BatchCause::Memory => 12,
    }
}

/// The number of a cause of a schedule, in the order of their tests.
pub fn number_of_schedule_cause(cause: ScheduleCause) -> u8 {
    match cause {
        ScheduleCause::Read => 1,
        ScheduleCause::Header => 2,
        ScheduleCause::FieldCount => 3,
        ScheduleCause::Op => 4,
        ScheduleCause::ClientNumber => 5,
        ScheduleCause::WireNumber => 6,
        ScheduleCause::ScheduleFull => 7,
        ScheduleCause::Memory => 8,
    }
}

/// The number of a flaw.
pub fn number_of_flaw(flaw: Flaw) -> u8 {
    match flaw {
        Flaw::Read(_record) => 1,
        Flaw::Form(_record) => 2,
        Flaw::DuplicateClient(_record) => 3,
        Flaw::DuplicateName(_record) => 4,
        Flaw::Gap {
            epoch: _epoch,
            name: _name,
        } => 5,
        Flaw::Memory => 6,
    }
}

/// The number of what a core replies.
pub fn number_of_reply(reply: Reply) -> u8 {
    match reply {
        Reply::Entered => 0,
        Reply::EnterRefused(EnterFault::NoSuchEntry) => 1,
        Reply::EnterRefused(EnterFault::AlreadyIn) => 2,
        Reply::EnterRefused(EnterFault::EpochFull) => 3,
        Reply::EnterRefused(EnterFault::Memory) => 4,
        Reply::Stepped(_moved) => 5,
        Reply::StepRefused(StepFault::Stranger) => 6,
        Reply::StepRefused(StepFault::HasName(_name)) => 7,
    }
}

/// The number of a fault of a lane.
pub fn number_of_lane_fault(fault: LaneFault) -> u8 {
    match fault {
        LaneFault::NoSuchEntry => 1,
        LaneFault::QuotaSpent => 2,
        LaneFault::Memory => 3,
    }
}

/// The number of a fault of an epoch that workers run.
pub fn number_of_run_fault(fault: RunFault) -> u8 {
    match fault {
        RunFault::Workers => 1,
        RunFault::Hand => 2,
        RunFault::TooMany => 3,
        RunFault::NoSuchEntry(_client) => 4,
        RunFault::Memory => 5,
    }
}

/// The number of what a job ends with, by its own faults.
pub fn number_of_serve_fault(fault: ServeFault) -> u8 {
    match fault {
        ServeFault::Batch(_fault) => 1,
        ServeFault::Memory => 2,
        ServeFault::Write { written: _written } => 3,
    }
}

/// After how many bytes a text could not be written, if so.
pub fn written_before<W: Write>(writer: &mut W, text: &[u8]) -> Option<u64> {
    match emit(writer, text) {
        Ok(()) => None,
        Err(EmitFault { written }) => Some(written),
    }
}

/// Judges a list of grants that is at hand, by four exits.
pub fn judged<W: Write>(
    alloc: Global,
    list: &[u8],
    writer: &mut W,
) -> Option<Result<(), CheckFault>> {
    if is_width(4) {
        Some(check(alloc, list, writer, 4))
    } else {
        None
    }
}
