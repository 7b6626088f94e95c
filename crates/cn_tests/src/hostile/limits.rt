//! Texts of as many records as may be, and of one more, which no list holds: a reader computes their bytes.

use super::computed::Computed;
use super::runs::{Answer, is_answered};
use crate::serving::Asked;
use cn_floor::OpenGate;
use cn_nets::Net;
use cn_renamer::{CheckFault, ReplayFault, check_within, replay};
use cn_report::{
    Batch, BatchCause, Bounds, Flaw, ScheduleCause, ScheduleFault, read_batch, read_batch_within,
};
use cn_wiring::{Kind, is_width};
use std::alloc::Global;
use std::hash::RandomState;
use std::sync::Wait;
use std::test::Fail;
use std::thread::Threads;

/// One worker.
pub(super) const ONE_WORKER: Asked = (Kind::Tree, 2, 1, 1);

/// Two workers.
pub(super) const TWO_WORKERS: Asked = (Kind::Tree, 2, 2, 1);

/// Full epochs from 1 on, of which each client comes once in all, and this end.
pub(super) fn full_epochs(records: u64, last: &'static [u8]) -> Computed {
    Computed::new(b"epoch,client,entry\n", b"YZ,GFEDCBA,0\n", records, last)
}

/// How many records of full epochs a batch has, what follows, and where and why it is refused: the record too many of
/// an epoch, with a client that is new there and with one that stands there; the record too many of a batch, in the
/// last of four full epochs with either, in a new epoch, with no number for a client, and in an epoch of one with
/// either.
const BATCHES: [(u64, &[u8], u64, BatchCause); 8] = [
    (262_144, b"1,262144,0\n", 262_145, BatchCause::EpochFull),
    (262_144, b"1,0,0\n", 262_145, BatchCause::Duplicate),
    (1_048_576, b"4,0,0\n", 1_048_577, BatchCause::EpochFull),
    (
        1_048_576,
        b"4,1048575,0\n",
        1_048_577,
        BatchCause::Duplicate,
    ),
    (1_048_576, b"5,0,0\n", 1_048_577, BatchCause::BatchFull),
    (1_048_576, b"5,x,0\n", 1_048_577, BatchCause::ClientNumber),
    (
        1_048_575,
        b"5,0,0\n5,1,0\n",
        1_048_577,
        BatchCause::BatchFull,
    ),
    (
        1_048_575,
        b"5,0,0\n5,0,0\n",
        1_048_577,
        BatchCause::Duplicate,
    ),
];

/// The place of the first batch that is not refused so, with nothing written.
fn wrong_batch<R: Threads + Wait + Sync>(
    rt: &R,
    alloc: Global,
    state: RandomState,
    asked: Asked,
) -> Option<usize> {
    for (place, (records, last, at, cause)) in BATCHES.iter().enumerate() {
        let reader = full_epochs(*records, *last);
        let wanted = Answer::Refused(*at, *cause);
        if !is_answered(rt, alloc, state, asked, reader, &OpenGate, wanted) {
            return Some(place);
        }
    }
    None
}

/// How many epochs a batch has, and how many of them are full.
fn sizes_of(batch: &Batch) -> (usize, usize) {
    let full = batch
        .epochs
        .iter()
        .filter(|epoch| epoch.clients.len() == 262_144)
        .count();
    (batch.epochs.len(), full)
}

/// The same of the largest batch.
fn largest_batch(alloc: Global, state: RandomState) -> Option<(usize, usize)> {
    match read_batch(alloc, full_epochs(1_048_576, b""), 1, state) {
        Ok(batch) => Some(sizes_of(&batch)),
        Err(_) => None,
    }
}

/// The same of a large batch, whose one epoch has a client more than one of another batch may have.
fn large_batch(alloc: Global, state: RandomState) -> Option<(usize, usize)> {
    let reader = full_epochs(262_144, b"1,262144,0\n");
    match read_batch_within(alloc, reader, Bounds::of(true, 1), state) {
        Ok(batch) => Some(sizes_of(&batch)),
        Err(_) => None,
    }
}

#[test]
fn large_batches(rt: HostRuntime) -> Result<(), Fail> {
    let (alloc, state) = (rt.alloc(), RandomState::new(&rt)?);
    assert_eq!(rt; large_batch(alloc, state), Some((1, 0)));
    Ok(())
}

#[test]
fn batch_limits(rt: HostRuntime) -> Result<(), Fail> {
    let (alloc, state) = (rt.alloc(), RandomState::new(&rt)?);
    let largest = largest_batch(alloc, state);
    let by_one = wrong_batch(&rt, alloc, state, ONE_WORKER);
    let by_two = wrong_batch(&rt, alloc, state, TWO_WORKERS);
    assert_eq!(rt; (largest, by_one, by_two), (Some((4, 4)), None, None));
    Ok(())
}

/// As many records as a schedule may have, and this end.
fn full_schedule(last: &'static [u8]) -> Computed {
    Computed::new(b"op,client,wire\n", b"step,GFEDCBA,\n", 1_048_576, last)
}

/// The end of a schedule that is refused there, and why.
const SCHEDULES: [(&[u8], ScheduleCause); 3] = [
    (b"turn,,\n", ScheduleCause::ScheduleFull),
    (b"turn,", ScheduleCause::FieldCount),
    (b"turn,7,\n", ScheduleCause::ClientNumber),
];

/// Whether a schedule with this end is refused at its last record for this cause, and nothing is written.
fn is_full(alloc: Global, state: RandomState, last: &'static [u8], cause: ScheduleCause) -> bool {
    let Ok(net) = Net::new(Kind::Tree, 2) else {
        return false;
    };
    let mut written = Vec::new(alloc);
    let done = replay(alloc, full_schedule(last), &mut written, &net, state);
    let at = 1_048_577;
    done == Err(ReplayFault::Schedule(ScheduleFault { at, cause })) && written.is_empty()
}

/// The place of the first schedule that is not refused so.
fn wrong_schedule(alloc: Global, state: RandomState) -> Option<usize> {
    for (place, (last, cause)) in SCHEDULES.iter().enumerate() {
        if !is_full(alloc, state, *last, *cause) {
            return Some(place);
        }
    }
    None
}

#[test]
fn schedule_limits(rt: HostRuntime) -> Result<(), Fail> {
    let wrong = wrong_schedule(rt.alloc(), RandomState::new(&rt)?);
    assert_eq!(rt; wrong, None);
    Ok(())
}

/// One epoch of as many grants as a list may have, client n with name n, and this end.
fn full_list(last: &'static [u8]) -> Computed {
    Computed::new(
        b"epoch,client,name\n",
        b"1,GFEDCBA,GFEDCBA\n",
        1_048_576,
        last,
    )
}

/// How a check of such a list for width 2, which is large or not, ends, and what it writes.
fn checked(
    alloc: Global,
    last: &'static [u8],
    large: bool,
) -> Option<(Result<(), CheckFault>, Vec<u8>)> {
    let mut written = Vec::new(alloc);
    if is_width(2) {
        let done = check_within(alloc, full_list(last), &mut written, 2, large);
        Some((done, written))
    } else {
        None
    }
}

const FULL_LIST_TIGHT: &[u8] = b"epoch 1 clients 1048576 counts 524288 524288\n\
      tight epochs 1 grants 1048576\n";

/// Whether such a list is tight if nothing follows.
fn is_tight(alloc: Global) -> bool {
    match checked(alloc, b"", false) {
        Some((done, written)) => done == Ok(()) && written.as_slice() == FULL_LIST_TIGHT,
        None => false,
    }
}

const LARGE_LIST_TIGHT: &[u8] = b"epoch 1 clients 1048577 counts 524289 524288\n\
      tight epochs 1 grants 1048577\n";

/// Whether such a list is tight as a large one if another grant follows.
fn is_tight_if_large(alloc: Global) -> bool {
    match checked(alloc, b"1,1048576,1048576\n", true) {
        Some((done, written)) => done == Ok(()) && written.as_slice() == LARGE_LIST_TIGHT,
        None => false,
    }
}

/// Records that may not follow: another grant, the same of a new epoch, one for a client that stands there, and none.
const LAST_GRANTS: [&[u8]; 4] = [
    b"1,1048576,1048576\n",
    b"2,0,0\n",
    b"1,0,1048576\n",
    b"1,x,0\n",
];

/// The first of them for whose form the list is not refused there, with nothing written.
fn wrong_last_grant(alloc: Global) -> Option<&'static [u8]> {
    let flaw = Err(CheckFault::Flaw(Flaw::Form(1_048_577)));
    for last in &LAST_GRANTS {
        let is_refused = match checked(alloc, *last, false) {
            Some((done, written)) => done == flaw && written.is_empty(),
            None => false,
        };
        if !is_refused {
            return Some(*last);
        }
    }
    None
}

#[test]
fn grant_list_limits(rt: HostRuntime) {
    let wrong = wrong_last_grant(rt.alloc());
    assert_eq!(rt; (is_tight(rt.alloc()), wrong), (true, None));
}

#[test]
fn large_grant_lists(rt: HostRuntime) {
    assert_eq!(rt; is_tight_if_large(rt.alloc()), true);
}
