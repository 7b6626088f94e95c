//! The epochs of a batch: run one after another, each by many workers, or beside one another, each by one.

ghost use Rattle.std.specs.Prelude.{◌≡◌, ◌+◌, ◌++◌, ◌<◌, ◌≤◌, [], ◌∷◌, ℕ, IfOk, IfSome, List, Ok, false, length, take, true};
ghost use Rattle.cn_spec.specs.declared.limits.TheConstants.{MOST_CARRIED, MOST_NAMED};
ghost use Rattle.cn_floor.specs.Carried.{client_count};
ghost use Rattle.cn_floor.specs.Ends.{QuietValue};
ghost use Rattle.cn_texts.specs.Reading.Batch.{MayCome, clients_of_epochs};
ghost use Rattle.cn_texts.specs.Reading.Bounds.{bounds_of};
ghost use Rattle.cn_renamer.specs.Floors.{HaveWalked, new_runner, runner_after};
ghost use Rattle.cn_renamer.specs.Running.{MayRunAll, clients_of_half, crew_of, of_one_worker, workers_that_pay};
ghost use Rattle.cn_walk.specs.Crew.{IsCrew};
ghost use denote.Param.Send.{IsSync};

use cn_cli::Options;
use cn_floor::{Gate, OpenGate, Receipts};
use cn_tables::Counting;
use cn_texts::BatchEpoch;
use cn_walk::{Crew, RunFault, Runner, join_mut};
use std::alloc::{AllocError, Global};
use std::sync::Wait;
use std::thread::Threads;

/// How many clients of a worker pay for its thread: fewer are walked in less time than a thread takes to start.
pub const CLIENTS_FOR_A_THREAD: usize = 8192;

/// How many of the workers that are asked for pay, if so many epochs, which have so many clients in all, may run beside
/// one another, each by one worker: no more than one for each epoch and one for each [`CLIENTS_FOR_A_THREAD`] clients,
/// and one at least.
pub fn workers_that_pay(asked: u32, epochs: usize, clients: usize) -> u32
    ensures { result ≡ workers_that_pay asked epochs clients }
{
    let paid = epochs.min(clients / CLIENTS_FOR_A_THREAD);
    paid.min(asked as usize).max(1) as u32
}

/// Runs the next epoch of a batch by a crew, and writes who has which name: the runner for the epoch after it, and the
/// receipt of its floor.
fn serve_epoch<'n, G: Gate + Sync, R: Threads + Wait + Sync>(
    rt: &R,
    alloc: Global,
    runner: Runner<'n>,
    epoch: &BatchEpoch,
    crew: Crew,
    gate: &G,
    holders: &mut [u64],
) -> Result<(Runner<'n>, Receipts), AllocError>
    requires come { MayCome (bounds_of true runner.words.network.table.entries) epoch.now.clients.items }
    requires few { client_count runner.words ≤ MOST_CARRIED }
    requires crew { IsCrew crew }
    requires places { length holders.old ≡ length epoch.now.clients.items }
    ensures walked { IfOk result (λ r. HaveWalked crew runner.entry (epoch.now ∷ []) r.1 holders.new) }
    ensures next { IfOk result (λ r. r.0 ≡ runner_after runner.entry r.1) }
{
    let (runner, ended) = runner.run(rt, alloc, &epoch.clients, crew, gate);
    match ended {
        Ok(closed) => {
            closed.list_holders(holders);
            Ok((runner, closed.receipt()))
        }
        Err(fault) => {
            // An epoch of a batch is refused only for want of memory.
            prove!(matches!(fault, RunFault::Memory));
            Err(AllocError)
        }
    }
}

/// Runs epochs one after another by a crew, and writes who has which name. Each begins with the words of the runner, by
/// which nobody came, or if it carries with those of the one before. The receipts are of their floors.
fn run_in_turn<'n, G: Gate + Sync, R: Threads + Wait + Sync>(
    rt: &R,
    alloc: Global,
    first: Runner<'n>,
    epochs: &[BatchEpoch],
    crew: Crew,
    gate: &G,
    holders: &mut [u64],
) -> Result<Receipts, AllocError>
    requires nobody { client_count first.words ≡ 0 }
    requires epochs { MayRunAll first.words.network.table.entries epochs.now (length holders.old) }
    requires crew { IsCrew crew }
    ensures { IfOk result (λ floors. HaveWalked crew first.entry epochs.now floors holders.new) }
{
    let mut runner = first;
    let mut receipts = Receipts::none();
    let mut at = 0;
    for epoch in epochs {
        let end = at + epoch.clients.len();
        let own = &mut holders[at..end];
        let (next, receipt) = serve_epoch(rt, alloc, runner, epoch, crew, gate, own)?;
        runner = next;
        receipts = receipts.append(receipt);
        at = end;
    }
    Ok(receipts)
}

/// How many clients epochs have.
fn clients_in(epochs: &[BatchEpoch]) -> usize
    requires { clients_of_epochs epochs.now ≤ MOST_NAMED }
    ensures { result ≡ clients_of_epochs epochs.now }
{
    epochs.iter().map(|epoch| epoch.clients.len()).sum()
}

/// Where epochs with so many clients are cut in two for a crew, each part with one at least: how many come before the
/// cut, and how many clients these have. It is the first place at which they have those of half the crew, of an odd one
/// of the smaller half.
fn cut(epochs: &[BatchEpoch], crew: Crew, clients: usize) -> (usize, usize)
    requires two { 2 ≤ length epochs.now }
    requires crew { IsCrew crew }
    requires few { clients_of_epochs epochs.now ≤ MOST_NAMED }
    requires all { clients ≡ clients_of_epochs epochs.now }
    ensures both { (0 < result.0) × (result.0 < length epochs.now) }
    ensures clients { result.1 ≡ clients_of_epochs (take result.0 epochs.now) }
    ensures reached { result.0 + 1 < length epochs.now → clients_of_half crew clients ≤ result.1 }
    ensures first { (at : ℕ) → 0 < at → at < result.0
        → clients_of_epochs (take at epochs.now) < clients_of_half crew clients }
{
    let wanted = clients * (crew.workers / 2) as usize / crew.workers as usize;
    let mut at = 1;
    let mut before = epochs[0].clients.len();
    while before < wanted && at + 1 < epochs.len() {
        before += epochs[at].clients.len();
        at += 1;
    }
    (at, before)
}

/// Runs epochs that carry nothing one after another, by one worker of a crew, and writes who has which name. The
/// receipts are of their floors.
fn serve_by_one<R: Threads + Wait + Sync>(
    rt: &R,
    alloc: Global,
    network: &Counting,
    epochs: &[BatchEpoch],
    crew: Crew,
    holders: &mut [u64],
) -> Result<Receipts, AllocError>
    requires epochs { MayRunAll network.now.table.entries epochs.now (length holders.old) }
    requires crew { IsCrew crew }
    ensures { IfOk result (λ floors.
        HaveWalked (of_one_worker crew) (new_runner false network.now) epochs.now floors holders.new) }
{
    let runner = Runner::new(alloc, network, false)?;
    let one_worker = Crew { workers: 1, ..crew };
    run_in_turn(rt, alloc, runner, epochs, one_worker, &OpenGate, holders)
}

/// The receipts of two parts of a run, if both have run.
fn receipts_of_both(
    one: Result<Receipts, AllocError>,
    other: Result<Receipts, AllocError>,
) -> Result<Receipts, AllocError>
    ensures { IfOk result (λ floors. (first : List QuietValue) × (second : List QuietValue)
        × (one ≡ Ok first) × (other ≡ Ok second) × (floors ≡ first ++ second)) }
{
    let (floors, others) = (one?, other?);
    Ok(floors.append(others))
}

/// Runs epochs that carry nothing, each by one worker, and writes who has which name. If several workers of the crew
/// pay, two parts of the epochs run beside each other, each by a part of these workers, and so on in each; else they
/// run one after another. If no thread can be had the parts are run so too. The receipts are of their floors.
fn run_beside<R: Threads + Wait + Sync>(
    rt: &R,
    alloc: Global,
    network: &Counting,
    epochs: &[BatchEpoch],
    crew: Crew,
    holders: &mut [u64],
) -> Result<Receipts, AllocError>
    requires epochs { MayRunAll network.now.table.entries epochs.now (length holders.old) }
    requires crew { IsCrew crew }
    ensures { IfOk result (λ floors.
        HaveWalked (of_one_worker crew) (new_runner false network.now) epochs.now floors holders.new) }
{
    let clients = holders.len();
    let workers = workers_that_pay(crew.workers, epochs.len(), clients);
    if workers < 2 {
        return serve_by_one(rt, alloc, network, epochs, crew, holders);
    }
    let crew = Crew { workers, ..crew };
    let (at, reached) = cut(epochs, crew, clients);
    let (crew, others) = crew.split(reached, clients);
    let (first, second) = epochs.split_at(at);
    let (front, back) = holders.split_at_mut(reached);
    let (one, other) = join_mut(
        rt,
        &mut ||
            requires { IsSync R.row × IsCrew crew × MayRunAll network.now.table.entries first.now (length front.now) }
            ensures { IfOk result (λ floors. HaveWalked (of_one_worker crew) (new_runner false network.entry.now)
                first.entry.now floors front.exit.now) }
        { run_beside(rt, alloc, network, first, crew, front) },
        &mut ||
            requires { IsSync R.row × IsCrew others × MayRunAll network.now.table.entries second.now (length back.now) }
            ensures { IfOk result (λ floors. HaveWalked (of_one_worker others) (new_runner false network.entry.now)
                second.entry.now floors back.exit.now) }
        { run_beside(rt, alloc, network, second, others, back) },
    );
    receipts_of_both(one, other)
}

/// Memory of which one worker runs any of these epochs, with 2 MB more than their grants want.
fn keep_for_one(alloc: Global, epochs: &[BatchEpoch]) -> Result<Vec<[u64; 4]>, AllocError> {
    let most = epochs.iter().map(|epoch| epoch.clients.len()).max();
    Vec::with_capacity(alloc, most.unwrap_or(0).saturating_add(65_536))
}

/// Runs epochs by several workers, and writes who has which name: at a gate each epoch by all that the options ask for,
/// else beside one another. Memory for a run by one worker is held meanwhile, so it is there afterwards, whatever the
/// stacks of threads and what the C library keeps for threads may still hold. `None` if no more than one worker pays,
/// or they are refused memory. The receipts are of their floors.
fn run_by_several<G: Gate + Sync, R: Threads + Wait + Sync>(
    rt: &R,
    alloc: Global,
    network: &Counting,
    options: &Options,
    epochs: &[BatchEpoch],
    gate: Option<&G>,
    holders: &mut [u64],
) -> Option<Receipts>
    requires epochs { MayRunAll network.now.table.entries epochs.now (length holders.old) }
    ensures { IfSome result (λ floors. HaveWalked (crew_of gate.entry options.now)
        (new_runner options.now.carry network.now) epochs.now floors holders.new) }
{
    let (workers, carries) = (options.workers(), options.carries());
    let crew = Crew {
        first: 0,
        workers,
        hand: options.hand(),
    };
    match gate {
        Some(gate) if workers > 1 => {
            let _kept = keep_for_one(alloc, epochs).ok()?;
            let runner = Runner::new(alloc, network, carries).ok()?;
            run_in_turn(rt, alloc, runner, epochs, crew, gate, holders).ok()
        }
        None if !carries && workers_that_pay(workers, epochs.len(), holders.len()) > 1 => {
            let _kept = keep_for_one(alloc, epochs).ok()?;
            run_beside(rt, alloc, network, epochs, crew, holders).ok()
        }
        _ => None,
    }
}

/// Runs the epochs of a batch on a network, as the options say, and writes who has which name. If several workers are
/// refused memory, one runs all epochs once the threads have ended and what they held is let go. The receipts are of
/// their floors.
fn serve_epochs<G: Gate + Sync, R: Threads + Wait + Sync>(
    rt: &R,
    alloc: Global,
    network: &Counting,
    options: &Options,
    epochs: &[BatchEpoch],
    gate: Option<&G>,
    holders: &mut [u64],
) -> Result<Receipts, AllocError>
    requires epochs { MayRunAll network.now.table.entries epochs.now (length holders.old) }
    ensures { IfOk result (λ floors. HaveWalked (crew_of gate.entry options.now)
        (new_runner options.now.carry network.now) epochs.now floors holders.new) }
{
    if let Some(receipts) = run_by_several(rt, alloc, network, options, epochs, gate, holders) {
        return Ok(receipts);
    }
    let runner = Runner::new(alloc, network, options.carries())?;
    let one = Crew {
        first: 0,
        workers: 1,
        hand: options.hand(),
    };
    match gate {
        Some(gate) => run_in_turn(rt, alloc, runner, epochs, one, gate, holders),
        None => run_in_turn(rt, alloc, runner, epochs, one, &OpenGate, holders),
    }
}

/// Runs the epochs of a batch on a network, as the options say: who has which name, epoch after epoch, each by rising
/// name; and the receipts of the floors on which they were named. At a gate the epochs run one after another, each by
/// all workers that the options ask for; without one each is run by one worker, and as many run beside one another as
/// pay.
pub(crate) fn run_epochs<G: Gate + Sync, R: Threads + Wait + Sync>(
    rt: &R,
    alloc: Global,
    network: &Counting,
    options: &Options,
    epochs: &[BatchEpoch],
    gate: Option<&G>,
) -> Result<(Vec<u64>, Receipts), AllocError>
    requires may { MayRunAll network.now.table.entries epochs.now (clients_of_epochs epochs.now) }
    ensures walked { IfOk result (λ r. HaveWalked (crew_of gate.entry options.now)
        (new_runner options.now.carry network.now) epochs.now r.1 r.0.items) }
    ensures many { IfOk result (λ r. clients_of_epochs epochs.now ≡ length r.0.items) }
{
    let mut holders = vec![in alloc; 0; clients_in(epochs)]?;
    let receipts = serve_epochs(rt, alloc, network, options, epochs, gate, &mut holders)?;
    Ok((holders, receipts))
}
