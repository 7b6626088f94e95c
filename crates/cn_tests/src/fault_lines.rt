//! The line that the program prints of each fault, and the status that it ends with.

use crate::performing::ends_with;
use crate::writers::{Narrow, Then};
use cn_renamer::{CheckFault, Fault, OutputFault, ReplayFault, RuntimeFault, ServeFault, end};
use cn_report::{BatchCause, BatchFault, Flaw, ScheduleCause, ScheduleFault};
use std::alloc::Global;

/// Whether a fault is printed with this line, and ends with this status; also if the one write that fails is the first,
/// after which no other is tried.
fn is_printed(alloc: Global, fault: Fault, line: &[u8], status: u8) -> bool {
    let done = Err(fault);
    let mut full = Narrow::new(alloc, 0, Then::FailsOnce);
    let ends = end(&done, &mut full) == status && full.taken.is_empty();
    ends && ends_with(alloc, &done, line, status)
}

/// A replay's fault, at this line.
const REPLAY_FAULTS: [(ReplayFault, &[u8], u8); 3] = [
    (REFUSED, b"renamer: record 3: Op\n", 1),
    (ReplayFault::Memory, b"renamer: memory\n", 3),
    (
        ReplayFault::Write { written: 9 },
        b"renamer: write after 9 bytes\n",
        3,
    ),
];

const REFUSED: ReplayFault = ReplayFault::Schedule(ScheduleFault {
    at: 3,
    cause: ScheduleCause::Op,
});

/// The first line that is not a replay's fault's.
fn wrong_replay_fault(alloc: Global) -> Option<&'static [u8]> {
    for (fault, line, status) in &REPLAY_FAULTS {
        if !is_printed(alloc, Fault::Replay(*fault), line, *status) {
            return Some(*line);
        }
    }
    None
}

/// A run's fault, at this line.
const SERVE_FAULTS: [(ServeFault, &[u8], u8); 3] = [
    (REFUSED_BATCH, b"renamer: record 2: Duplicate\n", 1),
    (ServeFault::Memory, b"renamer: memory\n", 3),
    (
        ServeFault::Write { written: 10 },
        b"renamer: write after 10 bytes\n",
        3,
    ),
];

const REFUSED_BATCH: ServeFault = ServeFault::Batch(BatchFault {
    at: 2,
    cause: BatchCause::Duplicate,
});

/// The first line that is not a run's fault's.
fn wrong_serve_fault(alloc: Global) -> Option<&'static [u8]> {
    for (fault, line, status) in &SERVE_FAULTS {
        if !is_printed(alloc, Fault::Serve(*fault), line, *status) {
            return Some(*line);
        }
    }
    None
}

/// A check's fault, at this line.
const CHECK_FAULTS: [(CheckFault, &[u8], u8); 8] = [
    (
        CheckFault::Flaw(Flaw::Read(4)),
        b"renamer: record 4: Read\n",
        1,
    ),
    (
        CheckFault::Flaw(Flaw::Form(2)),
        b"renamer: record 2: Form\n",
        1,
    ),
    (
        CheckFault::Flaw(Flaw::DuplicateClient(2)),
        b"renamer: flaw: DuplicateClient record 2\n",
        4,
    ),
    (
        CheckFault::Flaw(Flaw::DuplicateName(3)),
        b"renamer: flaw: DuplicateName record 3\n",
        4,
    ),
    (GAP, b"renamer: flaw: Gap epoch 1 name 2\n", 4),
    (CheckFault::Flaw(Flaw::Memory), b"renamer: memory\n", 3),
    (CheckFault::Memory, b"renamer: memory\n", 3),
    (
        CheckFault::Write { written: 1 },
        b"renamer: write after 1 bytes\n",
        3,
    ),
];

const GAP: CheckFault = CheckFault::Flaw(Flaw::Gap { epoch: 1, name: 2 });

/// The first line that is not a check's fault's.
fn wrong_check_fault(alloc: Global) -> Option<&'static [u8]> {
    for (fault, line, status) in &CHECK_FAULTS {
        if !is_printed(alloc, Fault::Check(*fault), line, *status) {
            return Some(*line);
        }
    }
    None
}

const OUTPUT_FAULTS: [(OutputFault, &[u8], u8); 2] = [
    (OutputFault::Memory, b"renamer: memory\n", 3),
    (
        OutputFault::Write { written: 0 },
        b"renamer: write after 0 bytes\n",
        3,
    ),
];

/// The first line that is not an output's fault's.
fn wrong_output_fault(alloc: Global) -> Option<&'static [u8]> {
    for (fault, line, status) in &OUTPUT_FAULTS {
        if !is_printed(alloc, Fault::Output(*fault), line, *status) {
            return Some(*line);
        }
    }
    None
}

/// Whether words that are refused, and a runtime that fails, have their lines and statuses.
fn are_printed(alloc: Global) -> Option<[bool; 2]> {
    let no = String::from_str(alloc, "no\n").ok()?;
    Some([
        is_printed(alloc, Fault::Refused(no), b"no\n", 2),
        is_printed(
            alloc,
            Fault::Runtime(RuntimeFault),
            b"renamer: runtime\n",
            3,
        ),
    ])
}

/// The first line of a job's fault that is another.
fn wrong_fault(alloc: Global) -> Option<&'static [u8]> {
    wrong_serve_fault(alloc)
        .or_else(|| wrong_replay_fault(alloc))
        .or_else(|| wrong_check_fault(alloc))
        .or_else(|| wrong_output_fault(alloc))
}

#[test]
fn each_fault_has_its_line_and_its_status(rt: HostRuntime) {
    assert_eq!(rt; wrong_fault(rt.alloc()), None);
    assert_eq!(rt; are_printed(rt.alloc()), Some([true, true]));
}
