//! Epochs one after another on one runner.

use cn_bitonic::bitonic;
use cn_floor::OpenGate;
use cn_ledger::Client;
use cn_spec::limits::MOST_CARRIED;
use cn_walk::{Crew, RunFault, Runner};
use std::alloc::Global;
use std::sync::Wait;
use std::thread::Threads;

/// One worker, who has one client in hand.
const ONE: Crew = Crew {
    first: 0,
    workers: 1,
    hand: 1,
};

/// An epoch on bitonic 2: how many left by each exit of the words with which the next begins, and how many came by
/// them.
type Seen = ([u64; 2], u64);

/// An epoch of only client 7, who gets its one name.
fn next<'a, R: Threads + Wait + Sync>(
    rt: &R,
    alloc: Global,
    runner: Runner<'a>,
) -> Option<(Seen, Runner<'a>)> {
    if runner.words().clients() > MOST_CARRIED {
        return None;
    }
    let clients = [Client { id: 7, entry: 0 }];
    let mut holders = [0];
    let (runner, ended) = runner.run(rt, alloc, &clients, ONE, &OpenGate);
    ended.ok()?.list_holders(&mut holders);
    if holders != [7] {
        return None;
    }
    let words = runner.words();
    if words.network().width() != 2 {
        return None;
    }
    let seen = ([words.exit_count(0), words.exit_count(1)], words.clients());
    Some((seen, runner))
}

/// Two epochs.
fn two<R: Threads + Wait + Sync>(rt: &R, alloc: Global, carries: bool) -> Option<[Seen; 2]> {
    let network = bitonic(alloc, 2).ok()?;
    let runner = Runner::new(alloc, &network, carries).ok()?;
    let (first, runner) = next(rt, alloc, runner)?;
    let (second, _) = next(rt, alloc, runner)?;
    Some([first, second])
}

#[test]
fn runners_clear(rt: HostRuntime) {
    assert_eq!(rt;
        two(&rt, rt.alloc(), false),
        Some([([0, 0], 0), ([0, 0], 0)])
    );
}

#[test]
fn runners_carry(rt: HostRuntime) {
    assert_eq!(rt;
        two(&rt, rt.alloc(), true),
        Some([([1, 0], 1), ([1, 1], 2)])
    );
}

/// The fault of an epoch without workers, and how many came by the words then.
fn refused<R: Threads + Wait + Sync>(rt: &R, alloc: Global) -> Option<(Option<RunFault>, u64)> {
    let network = bitonic(alloc, 2).ok()?;
    let runner = Runner::new(alloc, &network, true).ok()?;
    let (_, runner) = next(rt, alloc, runner)?;
    if runner.words().clients() > MOST_CARRIED {
        return None;
    }
    let nobody = Crew { workers: 0, ..ONE };
    let (runner, ended) = runner.run(rt, alloc, &[], nobody, &OpenGate);
    Some((ended.err(), runner.words().clients()))
}

#[test]
fn runners_keep_their_words(rt: HostRuntime) {
    assert_eq!(rt;
        refused(&rt, rt.alloc()),
        Some((Some(RunFault::Workers), 1))
    );
}

/// Who has the names of an epoch of two clients, written over a list, and how many came by the words after it.
fn listed<R: Threads + Wait + Sync>(rt: &R, alloc: Global) -> Option<([u64; 2], u64)> {
    let network = bitonic(alloc, 2).ok()?;
    let runner = Runner::new(alloc, &network, true).ok()?;
    let clients = [Client { id: 7, entry: 0 }, Client { id: 9, entry: 1 }];
    let mut holders = [0; 2];
    let (runner, ended) = runner.run(rt, alloc, &clients, ONE, &OpenGate);
    ended.ok()?.list_holders(&mut holders);
    Some((holders, runner.words().clients()))
}

#[test]
fn runners_list_holders(rt: HostRuntime) {
    assert_eq!(rt; listed(&rt, rt.alloc()), Some(([7, 9], 2)));
}
