//! Reports of records that are at hand.

use cn_bitonic::bitonic;
use cn_ledger::EpochRecord;
use cn_report::render_report;
use cn_wiring::Counting;
use std::alloc::Global;

/// The record of an epoch with these counts and holders.
pub(crate) fn record(
    alloc: Global,
    number: u64,
    counts: &[u64],
    holders: &[u64],
) -> Option<EpochRecord> {
    Some(EpochRecord {
        number,
        clients: holders.len() as u64,
        counts: counts.to_vec(alloc).ok()?,
        holders: holders.to_vec(alloc).ok()?,
    })
}

/// Whether this is the report of one epoch, whose record is whole.
fn is_reported(alloc: Global, network: &Counting, epoch: EpochRecord, wanted: &[u8]) -> bool {
    let counts = epoch.counts.len();
    let holders = epoch.holders.len() as u64;
    if counts != network.width() as usize || holders != epoch.clients {
        return false;
    }
    match render_report(alloc, network, &[epoch]) {
        Ok(text) => text.as_slice() == wanted,
        Err(_) => false,
    }
}

/// Whether this is the report of no epoch.
fn is_none_reported(alloc: Global, network: &Counting, wanted: &[u8]) -> bool {
    match render_report(alloc, network, &[]) {
        Ok(text) => text.as_slice() == wanted,
        Err(_) => false,
    }
}

/// An epoch on the bitonic network of a width, with its number, counts and holders, its report, and that of no epoch.
type Row = (
    u32,
    u64,
    &'static [u64],
    &'static [u64],
    &'static [u8],
    &'static [u8],
);

const ROWS: [Row; 2] = [
    (
        2,
        1,
        &[1, 0],
        &[17],
        b"network bitonic width 2 balancers 1 depth 1\n\
      epoch 1 clients 1\n\
      exit 0 count 1\n\
      exit 1 count 0\n\
      name 0 client 17\n\
      end epochs 1 grants 1\n",
        b"network bitonic width 2 balancers 1 depth 1\nend epochs 0 grants 0\n",
    ),
    (
        4,
        7,
        &[2, 1, 1, 1],
        &[17, 5, 99, 23, 42],
        b"network bitonic width 4 balancers 6 depth 3\n\
      epoch 7 clients 5\n\
      exit 0 count 2\n\
      exit 1 count 1\n\
      exit 2 count 1\n\
      exit 3 count 1\n\
      name 0 client 17\n\
      name 1 client 5\n\
      name 2 client 99\n\
      name 3 client 23\n\
      name 4 client 42\n\
      end epochs 1 grants 5\n",
        b"network bitonic width 4 balancers 6 depth 3\nend epochs 0 grants 0\n",
    ),
];

/// Whether the reports of an epoch and of none are these.
fn are_reported(alloc: Global, row: &Row) -> Option<[bool; 2]> {
    let (width, number, counts, holders, some, none) = *row;
    let network = bitonic(alloc, width).ok()?;
    let is_some = match record(alloc, number, counts, holders) {
        Some(epoch) => is_reported(alloc, &network, epoch, some),
        None => false,
    };
    Some([is_some, is_none_reported(alloc, &network, none)])
}

/// The place of the first epoch that has another report.
fn wrong_report(alloc: Global) -> Option<usize> {
    for (place, row) in ROWS.iter().enumerate() {
        if are_reported(alloc, row) != Some([true, true]) {
            return Some(place);
        }
    }
    None
}

#[test]
fn single_client_and_five_on_one_entry(rt: HostRuntime) {
    assert_eq!(rt; wrong_report(rt.alloc()), None);
}
