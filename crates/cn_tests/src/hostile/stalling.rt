//! Workers of whom one is held before one of its moments until the other has come to its last. The other begins when
//! the first is held: so the order of all passages is fixed, and each client has the name that comes of it.

use super::runs::ran;
use crate::serving::Asked;
use crate::waiting::comes_to;
use cn_bitonic::bitonic;
use cn_cli::Form;
use cn_floor::{Gate, Moment, Quiet};
use cn_ledger::Client;
use cn_walk::run_epoch;
use cn_wiring::Kind;
use std::alloc::Global;
use std::hash::RandomState;
use std::sync::Wait;
use std::sync::atomic::{AtomicU64, Ordering};
use std::test::Fail;
use std::thread::Threads;

/// To how many moments a worker comes: each of its two clients comes in, passes three balancers, and leaves.
const MOMENTS: u64 = 10;

/// Counts the moments to which two workers come. It holds one of them before one of its moments until the other has
/// come to its last, and that one before its first moment until the first is held.
#[derive(Drop)]
struct Stall {
    held: usize,
    moment: u64,
    come: [AtomicU64; 2],
    late: AtomicU64,
}

impl Gate for Stall {
    fn before<R: Wait>(&self, _rt: &R, worker: u32, _moment: Moment) {
        let [first, second] = &self.come;
        let (own, other) = match worker {
            0 => (first, second),
            _ => (second, first),
        };
        let earlier = own.fetch_add(1, Ordering::SeqCst);
        let (stop, awaited) = if worker as usize == self.held {
            (self.moment, MOMENTS)
        } else {
            (0, self.moment.saturating_add(1))
        };
        if earlier == stop && !comes_to(other, awaited) {
            self.late.store(1, Ordering::SeqCst);
        }
    }
}

/// A gate that holds this worker before this one of its moments, counted from 0.
fn stalled(held: usize, moment: u64) -> Stall {
    Stall {
        held,
        moment,
        come: [AtomicU64::new(0), AtomicU64::new(0)],
        late: AtomicU64::new(0),
    }
}

/// Whether neither was held for longer than it may be, and both came to all their moments.
fn has_held(gate: &Stall) -> bool {
    let [first, second] = &gate.come;
    let come = (first.load(Ordering::SeqCst), second.load(Ordering::SeqCst));
    gate.late.load(Ordering::SeqCst) == 0 && come == (MOMENTS, MOMENTS)
}

/// Who has the names 0 to 3, by the worker that is held and the moment. The two balancers behind the entries serve the
/// two clients of a worker each, so the order of the workers shows at the four others; one client leaves by each exit.
const HOLDERS: [[[u64; 4]; 10]; 2] = [
    [
        [2, 3, 0, 1],
        [2, 3, 0, 1],
        [2, 3, 0, 1],
        [2, 0, 3, 1],
        [0, 2, 3, 1],
        [0, 2, 3, 1],
        [0, 2, 3, 1],
        [0, 2, 3, 1],
        [0, 1, 2, 3],
        [0, 1, 2, 3],
    ],
    [
        [0, 1, 2, 3],
        [0, 1, 2, 3],
        [0, 1, 2, 3],
        [0, 2, 1, 3],
        [2, 0, 1, 3],
        [2, 0, 1, 3],
        [2, 0, 1, 3],
        [2, 0, 1, 3],
        [2, 3, 0, 1],
        [2, 3, 0, 1],
    ],
];

const CLIENTS: [Client; 4] = [
    Client { id: 0, entry: 0 },
    Client { id: 1, entry: 1 },
    Client { id: 2, entry: 2 },
    Client { id: 3, entry: 3 },
];

/// Whether one client left by each exit, and these are the clients by name.
fn are_counted(quiet: &Quiet<'_>, holders: &[u64; 4]) -> bool {
    let are_named = match quiet.holders() {
        Ok(found) => found.as_slice() == holders.as_slice(),
        Err(_) => false,
    };
    are_named && quiet.counts() == [1, 1, 1, 1].as_slice()
}

/// Whether the run of an epoch gives these holders.
fn is_epoch_right<R: Threads + Wait + Sync>(
    rt: &R,
    alloc: Global,
    gate: &Stall,
    holders: &[u64; 4],
) -> bool {
    let Ok(network) = bitonic(alloc, 4) else {
        return false;
    };
    match run_epoch(rt, alloc, &network, &CLIENTS, 2, 1, gate) {
        Ok(quiet) => are_counted(&quiet, holders),
        Err(_) => false,
    }
}

const BATCH: &[u8] = b"epoch,client,entry\n1,0,0\n1,1,1\n1,2,2\n1,3,3\n";

const BY_TWO: Asked = (Kind::Bitonic, 4, 2, 1);

const COUNTED: &[u8] = b"network bitonic width 4 balancers 6 depth 3\n\
      epoch 1 clients 4\n\
      exit 0 count 1\n\
      exit 1 count 1\n\
      exit 2 count 1\n\
      exit 3 count 1\n";

/// The client, of one digit, to whom a line of a report gives this name.
fn client_of(line: &[u8], name: u8) -> Option<u64> {
    let digit = *line.get(14)?;
    let mut wanted = *b"name 0 client 0\n";
    wanted[5] = name;
    wanted[14] = digit;
    if line == wanted.as_slice() {
        Some(u64::from(digit.checked_sub(b'0')?))
    } else {
        None
    }
}

/// The clients to whom a report of these counts gives the names 0 to 3, in this order.
fn holders_of(report: &[u8]) -> Option<[u64; 4]> {
    let names = report
        .strip_prefix(COUNTED)?
        .strip_suffix(b"end epochs 1 grants 4\n")?;
    if names.len() != 64 {
        return None;
    }
    Some([
        client_of(&names[..16], b'0')?,
        client_of(&names[16..32], b'1')?,
        client_of(&names[32..48], b'2')?,
        client_of(&names[48..], b'3')?,
    ])
}

/// Whether the report of a batch gives these holders.
fn is_batch_right<R: Threads + Wait + Sync>(
    rt: &R,
    alloc: Global,
    state: RandomState,
    gate: &Stall,
    holders: &[u64; 4],
) -> bool {
    match ran(rt, alloc, state, BY_TWO, Form::Report, BATCH, gate) {
        Some((Ok(()), report)) => holders_of(&report) == Some(*holders),
        _ => false,
    }
}

/// Whether the run of an epoch and that of a batch give these holders, and each has held this worker before this
/// moment.
fn are_right<R: Threads + Wait + Sync>(
    rt: &R,
    alloc: Global,
    state: RandomState,
    held: usize,
    moment: u64,
    holders: &[u64; 4],
) -> [bool; 4] {
    let (one, other) = (stalled(held, moment), stalled(held, moment));
    [
        is_epoch_right(rt, alloc, &one, holders),
        has_held(&one),
        is_batch_right(rt, alloc, state, &other, holders),
        has_held(&other),
    ]
}

/// The first worker and moment at which they are not.
fn wrong_stall<R: Threads + Wait + Sync>(
    rt: &R,
    alloc: Global,
    state: RandomState,
) -> Option<(usize, usize)> {
    for (held, rows) in HOLDERS.iter().enumerate() {
        for (moment, holders) in rows.iter().enumerate() {
            if are_right(rt, alloc, state, held, moment as u64, holders) != [true; 4] {
                return Some((held, moment));
            }
        }
    }
    None
}

#[test]
fn stalled_worker(rt: HostRuntime) -> Result<(), Fail> {
    let wrong = wrong_stall(&rt, rt.alloc(), RandomState::new(&rt)?);
    assert_eq!(rt; wrong, None);
    Ok(())
}
