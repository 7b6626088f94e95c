//! Readers that fail after many records, or within the header: the fault is that of the record which was being read.

use super::limits::{ONE_WORKER, TWO_WORKERS, full_epochs};
use super::runs::{Answer, is_answered};
use crate::serving::Asked;
use crate::writers::Broken;
use cn_floor::OpenGate;
use cn_report::BatchCause;
use std::alloc::Global;
use std::hash::RandomState;
use std::sync::Wait;
use std::test::Fail;
use std::thread::Threads;

/// After how many records a reader fails, and at which record that is reported.
const ROWS: [(u64, u64); 3] = [(1_500, 1_501), (2_048, 2_049), (20_000, 20_001)];

/// After how many records a read fails that is reported otherwise, or of whose batch something is written.
fn wrong_read<R: Threads + Wait + Sync>(
    rt: &R,
    alloc: Global,
    state: RandomState,
    asked: Asked,
) -> Option<u64> {
    for (records, at) in &ROWS {
        let reader = Broken {
            left: full_epochs(*records, b""),
        };
        let wanted = Answer::Refused(*at, BatchCause::Read);
        if !is_answered(rt, alloc, state, asked, reader, &OpenGate, wanted) {
            return Some(*records);
        }
    }
    None
}

#[test]
fn reads_that_fail_after_many_records(rt: HostRuntime) -> Result<(), Fail> {
    let (alloc, state) = (rt.alloc(), RandomState::new(&rt)?);
    let by_one = wrong_read(&rt, alloc, state, ONE_WORKER);
    let by_two = wrong_read(&rt, alloc, state, TWO_WORKERS);
    assert_eq!(rt; (by_one, by_two), (None, None));
    Ok(())
}

/// Whether a read that fails within the header is reported there, though the header has a field too many by then.
fn is_read_at_the_header<R: Threads + Wait + Sync>(
    rt: &R,
    alloc: Global,
    state: RandomState,
    asked: Asked,
) -> bool {
    let left: &[u8] = b"epoch,client,entry,";
    let wanted = Answer::Refused(0, BatchCause::Read);
    is_answered(rt, alloc, state, asked, Broken { left }, &OpenGate, wanted)
}

#[test]
fn a_read_that_fails_within_the_header(rt: HostRuntime) -> Result<(), Fail> {
    let (alloc, state) = (rt.alloc(), RandomState::new(&rt)?);
    let by_one = is_read_at_the_header(&rt, alloc, state, ONE_WORKER);
    let by_two = is_read_at_the_header(&rt, alloc, state, TWO_WORKERS);
    assert_eq!(rt; (by_one, by_two), (true, true));
    Ok(())
}
