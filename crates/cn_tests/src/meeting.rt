//! Workers that meet, in runs of an epoch and in runs of a batch: each waits, before its first leave, for all the
//! others.

use crate::serving::served;
use crate::waiting::comes_to;
use cn_bitonic::bitonic;
use cn_floor::{Gate, Moment, Quiet};
use cn_ledger::Client;
use cn_walk::run_epoch;
use cn_wiring::Kind;
use std::alloc::Global;
use std::hash::RandomState;
use std::sync::Wait;
use std::sync::atomic::{AtomicU64, Ordering};
use std::test::Fail;
use std::thread::Threads;

/// A flag for each worker, and whether one waited for too long.
#[derive(Drop)]
struct Meeting {
    flags: Vec<AtomicU64>,
    late: AtomicU64,
}

impl Gate for Meeting {
    fn before<R: Wait>(&self, _rt: &R, worker: u32, moment: Moment) {
        if moment != Moment::Leave {
            return;
        }
        let Some(own) = self.flags.get(worker as usize) else {
            return;
        };
        own.store(1, Ordering::SeqCst);
        for flag in self.flags.iter() {
            if !comes_to(flag, 1) {
                self.late.store(1, Ordering::SeqCst);
            }
        }
    }
}

/// A gate for so many workers, of whom none has come.
fn new_meeting(alloc: Global, workers: u32) -> Option<Meeting> {
    let mut flags = Vec::new(alloc);
    for _ in 0..workers {
        flags.push(AtomicU64::new(0)).ok()?;
    }
    Some(Meeting {
        flags,
        late: AtomicU64::new(0),
    })
}

/// Whether all met in time, and each set its flag.
fn have_met(gate: &Meeting) -> [bool; 2] {
    let in_time = gate.late.load(Ordering::SeqCst) == 0;
    let all = gate
        .flags
        .iter()
        .all(|flag| flag.load(Ordering::SeqCst) == 1);
    [in_time, all]
}

/// Clients numbered from 0, over all entries of bitonic 4.
const CLIENTS: [Client; 16] = [
    Client { id: 0, entry: 0 },
    Client { id: 1, entry: 1 },
    Client { id: 2, entry: 2 },
    Client { id: 3, entry: 3 },
    Client { id: 4, entry: 0 },
    Client { id: 5, entry: 1 },
    Client { id: 6, entry: 2 },
    Client { id: 7, entry: 3 },
    Client { id: 8, entry: 0 },
    Client { id: 9, entry: 1 },
    Client { id: 10, entry: 2 },
    Client { id: 11, entry: 3 },
    Client { id: 12, entry: 0 },
    Client { id: 13, entry: 1 },
    Client { id: 14, entry: 2 },
    Client { id: 15, entry: 3 },
];

/// Whether the clients with a name are those from 0 to below so many.
fn are_named(quiet: &Quiet<'_>, clients: u64) -> Option<bool> {
    let mut named = quiet.holders().ok()?;
    named.sort().ok()?;
    Some(named.iter().copied().eq(0..clients))
}

/// Runs clients over bitonic 4: whether all have names.
fn are_run<R: Threads + Wait + Sync>(
    rt: &R,
    alloc: Global,
    clients: &[Client],
    workers: u32,
    gate: &Meeting,
) -> Option<bool> {
    let network = bitonic(alloc, 4).ok()?;
    match run_epoch(rt, alloc, &network, clients, workers, 1, gate) {
        Ok(quiet) => are_named(&quiet, clients.len() as u64),
        Err(_) => None,
    }
}

/// Whether so many workers of a run of an epoch meet, and all these clients have names.
fn meet_in_an_epoch<R: Threads + Wait + Sync>(
    rt: &R,
    alloc: Global,
    clients: &[Client],
    workers: u32,
) -> Option<([bool; 2], bool)> {
    let gate = new_meeting(alloc, workers)?;
    let are_named = are_run(rt, alloc, clients, workers, &gate) == Some(true);
    Some((have_met(&gate), are_named))
}

#[test]
fn meeting_gate(rt: HostRuntime) {
    let two = meet_in_an_epoch(&rt, rt.alloc(), &CLIENTS[..4], 2);
    let eight = meet_in_an_epoch(&rt, rt.alloc(), &CLIENTS, 8);
    let wanted = Some(([true, true], true));
    assert_eq!(rt; [two, eight], [wanted, wanted]);
}

/// A number of workers, a client or two for each as a batch, and how its report on bitonic 4 begins.
type Row = (u32, &'static [u8], &'static [u8]);

const TWO: Row = (
    2,
    b"epoch,client,entry\n1,0,0\n1,1,1\n1,2,2\n1,3,3\n",
    b"network bitonic width 4 balancers 6 depth 3\n\
      epoch 1 clients 4\n\
      exit 0 count 1\n\
      exit 1 count 1\n\
      exit 2 count 1\n\
      exit 3 count 1\n",
);

const EIGHT: Row = (
    8,
    b"epoch,client,entry\n\
      1,0,0\n1,1,1\n1,2,2\n1,3,3\n\
      1,4,0\n1,5,1\n1,6,2\n1,7,3\n\
      1,8,0\n1,9,1\n1,10,2\n1,11,3\n\
      1,12,0\n1,13,1\n1,14,2\n1,15,3\n",
    b"network bitonic width 4 balancers 6 depth 3\n\
      epoch 1 clients 16\n\
      exit 0 count 4\n\
      exit 1 count 4\n\
      exit 2 count 4\n\
      exit 3 count 4\n",
);

const SIXTY_FOUR: Row = (
    64,
    b"epoch,client,entry\n\
      1,0,0\n1,1,1\n1,2,2\n1,3,3\n\
      1,4,0\n1,5,1\n1,6,2\n1,7,3\n\
      1,8,0\n1,9,1\n1,10,2\n1,11,3\n\
      1,12,0\n1,13,1\n1,14,2\n1,15,3\n\
      1,16,0\n1,17,1\n1,18,2\n1,19,3\n\
      1,20,0\n1,21,1\n1,22,2\n1,23,3\n\
      1,24,0\n1,25,1\n1,26,2\n1,27,3\n\
      1,28,0\n1,29,1\n1,30,2\n1,31,3\n\
      1,32,0\n1,33,1\n1,34,2\n1,35,3\n\
      1,36,0\n1,37,1\n1,38,2\n1,39,3\n\
      1,40,0\n1,41,1\n1,42,2\n1,43,3\n\
      1,44,0\n1,45,1\n1,46,2\n1,47,3\n\
      1,48,0\n1,49,1\n1,50,2\n1,51,3\n\
      1,52,0\n1,53,1\n1,54,2\n1,55,3\n\
      1,56,0\n1,57,1\n1,58,2\n1,59,3\n\
      1,60,0\n1,61,1\n1,62,2\n1,63,3\n",
    b"network bitonic width 4 balancers 6 depth 3\n\
      epoch 1 clients 64\n",
);

/// Whether the workers of a run of a batch meet, and its report begins so.
fn meet_in_a_batch<R: Threads + Wait + Sync>(
    rt: &R,
    alloc: Global,
    state: RandomState,
    row: &Row,
) -> Option<([bool; 2], bool)> {
    let (workers, batch, counts) = *row;
    let gate = new_meeting(alloc, workers)?;
    let asked = (Kind::Bitonic, 4, workers, 1);
    let is_counted = match served(rt, alloc, state, asked, batch, &gate) {
        Some(text) => text.starts_with(counts),
        None => false,
    };
    Some((have_met(&gate), is_counted))
}

#[test]
fn meeting_gate_of_a_batch(rt: HostRuntime) -> Result<(), Fail> {
    let (alloc, state) = (rt.alloc(), RandomState::new(&rt)?);
    let two = meet_in_a_batch(&rt, alloc, state, &TWO);
    let eight = meet_in_a_batch(&rt, alloc, state, &EIGHT);
    let all = meet_in_a_batch(&rt, alloc, state, &SIXTY_FOUR);
    assert_eq!(rt; [two, eight, all], [Some(([true, true], true)); 3]);
    Ok(())
}
