//! Epochs that go on from the words of others.

ghost use Rattle.std.specs.Prelude.{◌≡◌, IfOk};

use cn_bitonic::bitonic;
use cn_floor::{Gate, OpenGate, Quiet, Words};
use cn_ledger::Client;
use cn_spec::limits::MOST_CARRIED;
use cn_walk::{RunFault, run_epoch_after};
use cn_wiring::Counting;
use std::alloc::Global;
use std::sync::Wait;
use std::thread::Threads;

/// An epoch that goes on from words.
pub(crate) fn run_after<'a, G: Gate + Sync, R: Threads + Wait + Sync>(
    rt: &R,
    alloc: Global,
    words: &Words<'a>,
    clients: &[Client],
    workers: u32,
    hand: u32,
    gate: &G,
) -> Result<Quiet<'a>, Option<RunFault>>
    ensures { IfOk result (λ quiet. quiet.start.network ≡ words.now.network) }
{
    if words.clients() > MOST_CARRIED {
        return Err(None);
    }
    match run_epoch_after(rt, alloc, words, clients, workers, hand, gate) {
        Ok(quiet) => Ok(quiet),
        Err(fault) => Err(Some(fault)),
    }
}

const FIVE: [Client; 5] = [
    Client { id: 17, entry: 3 },
    Client { id: 5, entry: 3 },
    Client { id: 99, entry: 3 },
    Client { id: 23, entry: 3 },
    Client { id: 42, entry: 3 },
];

const THREE: [Client; 3] = [
    Client { id: 1, entry: 0 },
    Client { id: 2, entry: 0 },
    Client { id: 3, entry: 0 },
];

/// An epoch of bitonic 4 by one worker: its clients, how many leave by each exit, the clients by name, and how many
/// came by its words.
type Row = (&'static [Client], [u64; 4], &'static [u64], u64);

const FIVE_AT_FIRST: Row = (&FIVE, [2, 1, 1, 1], &[17, 5, 99, 23, 42], 5);

const THREE_AFTER_FIVE: Row = (&THREE, [0, 1, 1, 1], &[1, 2, 3], 8);

/// Whether an epoch has these counts, holders and clients.
fn is_left(quiet: &Quiet<'_>, counts: &[u64], holders: &[u64], clients: u64) -> bool {
    let are_holders = match quiet.holders() {
        Ok(found) => found.as_slice() == holders,
        Err(_) => false,
    };
    let found = [
        quiet.counts() == counts,
        are_holders,
        quiet.words().clients() == clients,
    ];
    found == [true; 3]
}

/// Whether an epoch that goes on from words is as its row says, and its own words.
fn goes_on<'a, R: Threads + Wait + Sync>(
    rt: &R,
    alloc: Global,
    words: &Words<'a>,
    row: &Row,
) -> Option<(bool, Words<'a>)> {
    let (clients, counts, holders, came) = *row;
    match run_after(rt, alloc, words, clients, 1, 1, &OpenGate) {
        Ok(quiet) => Some((is_left(&quiet, &counts, holders, came), quiet.into_words())),
        Err(_) => None,
    }
}

/// The same of the three.
fn three_go_on<R: Threads + Wait + Sync>(rt: &R, alloc: Global, words: &Words<'_>) -> Option<bool> {
    match goes_on(rt, alloc, words, &THREE_AFTER_FIVE) {
        Some((is_left, _)) => Some(is_left),
        None => None,
    }
}

/// Three clients after five.
fn three_after_five<R: Threads + Wait + Sync>(
    rt: &R,
    alloc: Global,
    zero: &Words<'_>,
) -> Option<[bool; 2]> {
    match goes_on(rt, alloc, zero, &FIVE_AT_FIRST) {
        Some((is_left, words)) => Some([is_left, three_go_on(rt, alloc, &words)?]),
        None => None,
    }
}

/// The same on a network of their own.
fn are_left<R: Threads + Wait + Sync>(rt: &R, alloc: Global) -> Option<[bool; 2]> {
    let network = bitonic(alloc, 4).ok()?;
    match Words::zero(alloc, &network) {
        Ok(zero) => three_after_five(rt, alloc, &zero),
        Err(_) => None,
    }
}

#[test]
fn epochs_go_on(rt: HostRuntime) {
    assert_eq!(rt; are_left(&rt, rt.alloc()), Some([true; 2]));
}

/// What words of bitonic 4 count at its first and last entries, at the two balancers behind the entries, and at its
/// first and last exits.
fn tell(words: &Words<'_>, network: &Counting) -> Option<[u64; 6]>
    requires { words.now.network ≡ network.now }
{
    if network.entries() != 4 || network.balancers() != 6 || network.width() != 4 {
        return None;
    }
    Some([
        words.entry_count(0),
        words.entry_count(3),
        words.pass_count(0),
        words.pass_count(1),
        words.exit_count(0),
        words.exit_count(3),
    ])
}

/// What they count after the five.
fn counted_after_five<R: Threads + Wait + Sync>(
    rt: &R,
    alloc: Global,
    zero: &Words<'_>,
    network: &Counting,
) -> Option<[u64; 6]>
    requires { zero.now.network ≡ network.now }
{
    match run_after(rt, alloc, zero, &FIVE, 1, 1, &OpenGate) {
        Ok(quiet) => tell(quiet.words(), network),
        Err(_) => None,
    }
}

/// The same on a network of their own.
fn five_counted<R: Threads + Wait + Sync>(rt: &R, alloc: Global) -> Option<[u64; 6]> {
    let network = bitonic(alloc, 4).ok()?;
    match Words::zero(alloc, &network) {
        Ok(zero) => counted_after_five(rt, alloc, &zero, &network),
        Err(_) => None,
    }
}

#[test]
fn words_tell(rt: HostRuntime) {
    assert_eq!(rt; five_counted(&rt, rt.alloc()), Some([0, 5, 0, 5, 2, 1]));
}
