//! Batches, read.

use crate::serving::FIVE_ON_ONE_ENTRY;
use crate::writers::Broken;
use cn_report::{Batch, BatchCause, BatchEpoch, BatchFault, read_batch};
use std::alloc::Global;
use std::hash::RandomState;
use std::io;
use std::test::Fail;

/// A client that comes: its epoch's number, its own and its entry's.
type Arrival = (u64, u64, u64);

fn push_all(arrivals: &mut Vec<Arrival>, epoch: &BatchEpoch) -> Option<()> {
    for client in &epoch.clients {
        arrivals.push((epoch.number, client.id, client.entry)).ok()?;
    }
    Some(())
}

fn arrivals_of(alloc: Global, batch: &Batch) -> Option<Vec<Arrival>> {
    let mut arrivals = Vec::new(alloc);
    for epoch in &batch.epochs {
        push_all(&mut arrivals, epoch)?;
    }
    Some(arrivals)
}

fn has_arrivals(alloc: Global, batch: &Batch, wanted: &[Arrival]) -> bool {
    match arrivals_of(alloc, batch) {
        Some(arrivals) => arrivals.as_slice() == wanted,
        None => false,
    }
}

/// Whether these are the arrivals of a batch on four entries.
fn is_read(alloc: Global, state: RandomState, text: &[u8], wanted: &[Arrival]) -> bool {
    match read_batch(alloc, text, 4, state) {
        Ok(batch) => has_arrivals(alloc, &batch, wanted),
        Err(_) => false,
    }
}

/// The fault of a batch on four entries, if it is refused.
fn fault_of<I: io::Read + Drop>(
    alloc: Global,
    state: RandomState,
    reader: I,
) -> Option<BatchFault> {
    match read_batch(alloc, reader, 4, state) {
        Ok(_) => None,
        Err(fault) => Some(fault),
    }
}

/// Batches and their arrivals: one of five clients, only a header, entries by rule, the records that csv reads, and the
/// identities that a field can give.
const READ: [(&[u8], &[Arrival]); 13] = [
    (
        FIVE_ON_ONE_ENTRY,
        &[(1, 17, 3), (1, 5, 3), (1, 99, 3), (1, 23, 3), (1, 42, 3)],
    ),
    (b"epoch,client,entry\n", &[]),
    (b"epoch,client\n", &[]),
    (b"epoch,client\n1,9\n1,10\n", &[(1, 9, 1), (1, 10, 2)]),
    (
        b"epoch,client,entry\n1,7,0\n3,7,1\n",
        &[(1, 7, 0), (3, 7, 1)],
    ),
    (
        b"epoch,client,entry\r\n1,7,0\r\n3,7,1\r\n",
        &[(1, 7, 0), (3, 7, 1)],
    ),
    (b"epoch,client,entry\n1,7,0\n3,7,1", &[(1, 7, 0), (3, 7, 1)]),
    (
        b"\n\nepoch,client,entry\n\n1,7,0\n\r\n\n3,7,1\n\n",
        &[(1, 7, 0), (3, 7, 1)],
    ),
    (
        b"\xef\xbb\xbfepoch,client,entry\n1,7,0\n3,7,1\n",
        &[(1, 7, 0), (3, 7, 1)],
    ),
    (
        b"\"epoch\",\"client\",\"entry\"\n\"1\",\"7\",\"0\"\n03,\"00\"7,\"1\"\n",
        &[(1, 7, 0), (3, 7, 1)],
    ),
    (
        b"epoch,client,entry\n1,18446744073709551615,0\n",
        &[(1, 18_446_744_073_709_551_615, 0)],
    ),
    (b"epoch,client,entry\n1,007,0\n", &[(1, 7, 0)]),
    (b"epoch,client,entry\n1,\"17\",0\n", &[(1, 17, 0)]),
];

/// The place of the first batch that has other arrivals.
fn wrong_arrivals(alloc: Global, state: RandomState) -> Option<usize> {
    for (place, row) in READ.iter().enumerate() {
        if !is_read(alloc, state, row.0, row.1) {
            return Some(place);
        }
    }
    None
}

#[test]
fn records_are_those_of_csv(rt: HostRuntime) -> Result<(), Fail> {
    let wrong = wrong_arrivals(rt.alloc(), RandomState::new(&rt)?);
    assert_eq!(rt; wrong, None);
    Ok(())
}

/// Inputs, at which record each is refused, and why.
const REFUSED: [(&[u8], u64, BatchCause); 34] = [
    (b"", 0, BatchCause::Header),
    (b"\n\n", 0, BatchCause::Header),
    (b"1,17,0\n", 0, BatchCause::Header),
    (b"epoch,client,\n", 0, BatchCause::Header),
    (b"epoch,client,name\n", 0, BatchCause::Header),
    (b"\"epoch,client,entry\"\n", 0, BatchCause::Header),
    (b"epoch,client\n1,17,0\n", 1, BatchCause::FieldCount),
    (b"epoch,client\n1\n", 1, BatchCause::FieldCount),
    (b"epoch,client\nx,y\n", 1, BatchCause::EpochNumber),
    (b"epoch,client\n1,y\n", 1, BatchCause::ClientNumber),
    (b"epoch,client\n2,9\n1,9\n", 2, BatchCause::EpochBackwards),
    (b"epoch,client\n1,9\n1,9\n", 2, BatchCause::Duplicate),
    (b"epoch,client,entry\n1,17\n", 1, BatchCause::FieldCount),
    (b"epoch,client,entry\n1\n", 1, BatchCause::FieldCount),
    (b"epoch,client,entry\n1,17,0,0\n", 1, BatchCause::FieldCount),
    (b"epoch,client,entry\nx,y\n", 1, BatchCause::FieldCount),
    (b"epoch,client,entry\nx,y,z\n", 1, BatchCause::EpochNumber),
    (
        b"epoch,client,entry\n1\xff,y,z\n",
        1,
        BatchCause::EpochNumber,
    ),
    (b"epoch,client,entry\n-1,17,0\n", 1, BatchCause::EpochNumber),
    (b"epoch,client,entry\n1,y,z\n", 1, BatchCause::ClientNumber),
    (
        b"epoch,client,entry\n1,18446744073709551616,0\n",
        1,
        BatchCause::ClientNumber,
    ),
    (b"epoch,client,entry\n1,+7,0\n", 1, BatchCause::ClientNumber),
    (b"epoch,client,entry\n1,,0\n", 1, BatchCause::ClientNumber),
    (
        b"epoch,client,entry\n1,000000000000000000007,0\n",
        1,
        BatchCause::ClientNumber,
    ),
    (b"epoch,client,entry\n1, 7,0\n", 1, BatchCause::ClientNumber),
    (
        b"epoch,client,entry\n1,7\xff,0\n",
        1,
        BatchCause::ClientNumber,
    ),
    (b"epoch,client,entry\n1,17,z\n", 1, BatchCause::EntryNumber),
    (b"epoch,client,entry\n1,17,\n", 1, BatchCause::EntryNumber),
    (b"epoch,client,entry\n1,17,4\n", 1, BatchCause::EntryRange),
    (
        b"epoch,client,entry\n2,17,0\n1,18,9\n",
        2,
        BatchCause::EpochBackwards,
    ),
    (
        b"epoch,client,entry\n2,17,0\n2,17,4\n",
        2,
        BatchCause::EntryRange,
    ),
    (
        b"epoch,client,entry\n1,17,0\n1,17,1\n",
        2,
        BatchCause::Duplicate,
    ),
    (
        b"epoch,client,entry\n1,007,0\n1,7,1\n",
        2,
        BatchCause::Duplicate,
    ),
    (
        b"epoch,client,entry\n1,17,0\n\n1,18,0\n1,18,0\n0,0\n",
        3,
        BatchCause::Duplicate,
    ),
];

/// Whether an input is refused at this record, for this cause.
fn is_refused(alloc: Global, state: RandomState, text: &[u8], at: u64, cause: BatchCause) -> bool {
    fault_of(alloc, state, text) == Some(BatchFault { at, cause })
}

/// The place of the first input that is not refused so.
fn wrong_refusal(alloc: Global, state: RandomState) -> Option<usize> {
    for (place, row) in REFUSED.iter().enumerate() {
        if !is_refused(alloc, state, row.0, row.1, row.2) {
            return Some(place);
        }
    }
    None
}

#[test]
fn batch_refusals(rt: HostRuntime) -> Result<(), Fail> {
    let wrong = wrong_refusal(rt.alloc(), RandomState::new(&rt)?);
    assert_eq!(rt; wrong, None);
    Ok(())
}

/// Whether a read that fails after this text is reported at this record.
fn is_broken(alloc: Global, state: RandomState, left: &[u8], at: u64) -> bool {
    let cause = BatchCause::Read;
    fault_of(alloc, state, Broken { left }) == Some(BatchFault { at, cause })
}

/// The first number of bytes after which a failed read has another fault, and how many lines were read before it.
fn wrong_read(alloc: Global, state: RandomState) -> (Option<usize>, u64) {
    let mut lines = 0u64;
    for end in 0..=FIVE_ON_ONE_ENTRY.len() {
        let left = &FIVE_ON_ONE_ENTRY[..end];
        if left.ends_with(b"\n") {
            lines = lines.saturating_add(1);
        }
        if !is_broken(alloc, state, left, lines) {
            return (Some(end), lines);
        }
    }
    (None, lines)
}

#[test]
fn read_cut_anywhere(rt: HostRuntime) -> Result<(), Fail> {
    let wrong = wrong_read(rt.alloc(), RandomState::new(&rt)?);
    assert_eq!(rt; wrong, (None, 6));
    Ok(())
}
