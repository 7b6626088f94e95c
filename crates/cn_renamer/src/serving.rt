//! A batch, served by many workers.

ghost use Rattle.std.specs.Prelude.{◌≡◌, ◌≤◌, ℕ, IfErr, IfOk, IfSome, List, Option, length};
ghost use Rattle.cn_spec.specs.declared.limits.TheConstants.{MOST_NAMED};
ghost use Rattle.cn_ledger.specs.declared.record.EpochRecord.{EpochRecord};
ghost use Rattle.cn_nets.specs.Net.{IsNetworkOf};
ghost use Rattle.cn_texts.specs.Reading.Batch.{AnswersBatch, AreServable, IsBatch, clients_of_epochs};
ghost use Rattle.cn_texts.specs.Reading.Bounds.{bounds_of};
ghost use Rattle.cn_texts.specs.Reading.Records.{records_of};
ghost use Rattle.cn_texts.specs.Writing.Pieces.{nothing_put};
ghost use Rattle.cn_texts.specs.Writing.EpochRecords.{AreRecordsOf};
ghost use Rattle.cn_texts.specs.Writing.Written.{First, HasWritten, Whole, written_by};
ghost use Rattle.cn_renamer.specs.Floors.{IsRunOnFloorsOfKnown};
ghost use Rattle.cn_renamer.specs.Headline.{IsRunInOrderOfKnown, IsRunOfKnown, text_in};
ghost use Rattle.cn_renamer.specs.Running.{crew_of, walkers};
ghost use Rattle.cn_renamer.specs.Serve.{IsServeFault, until_serve};
ghost use Rattle.cn_renamer.specs.Served.{HasServed};

use crate::epochs::run_epochs;
use crate::serve_fault::ServeFault;
use cn_cli::{Form, Options};
use cn_floor::{Gate, Receipts};
use cn_tables::Counting;
use cn_texts::{
    Batch, BatchEpoch, BatchFault, Bounds, EmitFault, Pieces, read_batch_within, write_grants,
    write_report,
};
use std::alloc::Global;
use std::hash::RandomState;
use std::io::{Read, Write};
use std::sync::Wait;
use std::thread::Threads;

/// Reads the batch of a run.
///
/// # Errors
/// Those of [`read_batch_within`].
fn read_by_options<I: Read + Drop>(
    alloc: Global,
    reader: I,
    network: &Counting,
    options: &Options,
    state: RandomState,
) -> Result<Batch, BatchFault>
    ensures answer { IfSome (I.remaining reader) (λ text.
        AnswersBatch (bounds_of options.now.large network.now.table.entries) (records_of text) result) }
    ensures fits { IfOk result (λ batch.
        AreServable (bounds_of options.now.large network.now.table.entries) batch.epochs.items) }
    ensures few { IfOk result (λ batch. clients_of_epochs batch.epochs.items ≤ MOST_NAMED) }
{
    let bounds = Bounds::of(options.is_large(), network.entries());
    read_batch_within(alloc, reader, bounds, state)
}

/// Writes the text of epochs that were run, in the options' form.
///
/// # Errors
/// `EmitFault` if a write or the flush at the end failed.
fn write_epochs<W: Write>(
    writer: &mut W,
    pieces: Pieces,
    network: &Counting,
    options: &Options,
    epochs: &[BatchEpoch],
    holders: &[u64],
) -> Result<(), EmitFault>
    requires fresh { pieces ≡ nothing_put }
    requires as_many { clients_of_epochs epochs.now ≡ length holders.now }
    requires few { clients_of_epochs epochs.now ≤ MOST_NAMED }
    ensures { (records : List EpochRecord)
        → AreRecordsOf options.now.carry network.now.table.width 0 epochs.now records holders.now
        → let written = written_by (λ fault. First fault.written) result in
        HasWritten W.contents (λ text. text ≡ text_in options.now.form network.now records) written
        writer.old writer.new }
{
    match options.form() {
        Form::Report => write_report(writer, pieces, network, options.carries(), epochs, holders),
        Form::Grants => write_grants(writer, pieces, epochs, holders),
    }
}

/// Runs the epochs of a batch that was read, and writes what came of them in the options' form. The receipts are of
/// their floors.
///
/// # Errors
/// `Memory` if any growth was refused; `Write` if a write or the flush at the end failed.
fn serve_batch<W: Write, G: Gate + Sync, R: Threads + Wait + Sync>(
    rt: &R,
    alloc: Global,
    writer: &mut W,
    network: &Counting,
    options: &Options,
    epochs: &[BatchEpoch],
    gate: Option<&G>,
) -> Result<Receipts, ServeFault>
    requires built { IsNetworkOf options.now.net network.now }
    requires fits { AreServable (bounds_of options.now.large network.now.table.entries) epochs.now }
    requires few { clients_of_epochs epochs.now ≤ MOST_NAMED }
    ensures { (known : Option (List ℕ)) → IfSome known (λ text.
        IsBatch (bounds_of options.now.large network.now.table.entries) (records_of text) epochs.now)
        → HasServed (crew_of gate.entry options.now) options.now known W.contents writer.old writer.new result }
{
    let (holders, receipts) = run_epochs(rt, alloc, network, options, epochs, gate)?;
    let pieces = Pieces::new(alloc)?;
    write_epochs(writer, pieces, network, options, epochs, &holders)?;
    Ok(receipts)
}

/// Reads a batch, runs its epochs, and writes what came of them in the options' form: the report, which has the
/// network, each epoch's number and its number of clients, how many left by each exit, who holds which name, and how
/// many epochs and grants there are; or the grant list, which `check` takes
/// (`written_grants_are_accepted` of `cn_report`).
///
/// The epochs run one after another, each as [`cn_walk::Runner::run`] does, by as many workers as the options have,
/// each with so many clients in hand.
///
/// **The headline.** Of each epoch of k clients exit i of w has the count ceiling((k - i) / w), and the clients have
/// the names 0 to k-1, each once (Aspnes, Herlihy, Shavit, *Counting Networks*, JACM 1994, section 2; renaming by
/// Attiya, Bar-Noy, Dolev, Peleg, Reischuk, JACM 1990). It holds of every interleaving of the workers' steps; which
/// client holds which name is theirs to settle.
///
/// **In order.** By one worker with one client in hand the n-th client of each epoch, counted from 0, gets the name n:
/// names follow the order of the batch, and what is written is a function of what is read
/// (`a_run_in_order_has_one_text` of `cn_report`).
///
/// If the options carry counters, no word is cleared between epochs. Then in each epoch of k clients after m the count
/// of exit i is its share of m + k clients minus its share of m. The names are still 0 to k-1, each below the number of
/// clients that entered in the epoch.
///
/// If the options say that the batch is a large one, it and each of its epochs may have as many clients as
/// [`cn_spec::limits::MOST_NAMED`] says, as far as memory goes.
///
/// The gate is asked before each step, by workers whose numbers begin at 0, and `serve` returns only if it lets each
/// worker on. The random state is for the clients of a batch's epoch as they are read. Nothing is written before every
/// epoch has ended.
///
/// # Errors
/// `Batch` with the first record that has a cause, and its first cause; `Memory` if any growth was refused; `Write` if
/// a write or the flush at the end failed, with the number of bytes that were written: they are the first of the text.
/// On any other fault nothing was written.
pub fn serve<I: Read + Drop, W: Write, G: Gate + Sync, R: Threads + Wait + Sync>(
    rt: &R,
    alloc: Global,
    reader: I,
    writer: &mut W,
    options: &Options,
    state: RandomState,
    gate: &G,
) -> Result<(), ServeFault>
    ensures headline { let o = options.now in
        let Is = IsRunOfKnown o.net o.form o.carry o.large (I.remaining reader) in
        HasWritten W.contents Is (written_by until_serve result) writer.old writer.new }
    ensures in_order { options.now.workers ≡ 1 → options.now.hand ≡ 1
        → let o = options.now in
        let Is = IsRunInOrderOfKnown o.net o.form o.carry o.large (I.remaining reader) in
        HasWritten W.contents Is (written_by until_serve result) writer.old writer.new }
    ensures refused { IfErr result (IsServeFault options.now.net options.now.large (I.remaining reader)) }
{
    let _receipts = serve_with_receipts(rt, alloc, reader, writer, options, state, Some(gate))?;
    Ok(())
}

/// Serves a batch at a gate, as [`serve`] does, or without one, as the program does unless its workers are to walk each
/// epoch together ([`Options::walks_together`]); and returns the receipts of the floors: what it has written has of
/// each epoch the counts by exit of a closed floor on which the clients of the epoch walked, and nobody else, and the
/// names that they were granted there.
///
/// Without a gate each epoch is walked by one worker: several that share an epoch's words wait for one another longer
/// than they gain. So with one client in hand names follow the order of the batch by any number of workers. Epochs that
/// carry counters run one after another. Else each has a floor of its own, and they run beside one another, by as many
/// of the options' workers as pay ([`crate::workers_that_pay`]): these epochs are cut in two parts, and the workers by
/// the clients of each, and so on in each part.
///
/// # Errors
/// Those of [`serve`].
pub fn serve_with_receipts<I: Read + Drop, W: Write, G: Gate + Sync, R: Threads + Wait + Sync>(
    rt: &R,
    alloc: Global,
    reader: I,
    writer: &mut W,
    options: &Options,
    state: RandomState,
    gate: Option<&G>,
) -> Result<Receipts, ServeFault>
    ensures headline { let o = options.now in
        let Is = IsRunOfKnown o.net o.form o.carry o.large (I.remaining reader) in
        HasWritten W.contents Is (written_by until_serve result) writer.old writer.new }
    ensures in_order { walkers gate.entry options.now.workers ≡ 1 → options.now.hand ≡ 1
        → let o = options.now in
        let Is = IsRunInOrderOfKnown o.net o.form o.carry o.large (I.remaining reader) in
        HasWritten W.contents Is (written_by until_serve result) writer.old writer.new }
    ensures floors { IfOk result (λ floors. let o = options.now in
        let Is = IsRunOnFloorsOfKnown o.net o.form o.carry o.large floors (I.remaining reader) in
        HasWritten W.contents Is Whole writer.old writer.new) }
    ensures refused { IfErr result (IsServeFault options.now.net options.now.large (I.remaining reader)) }
{
    let network = options.net().build(alloc)?;
    let batch = read_by_options(alloc, reader, &network, options, state)?;
    serve_batch(rt, alloc, writer, &network, options, &batch.epochs, gate)
}
