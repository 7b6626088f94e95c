//! Batches: a header, and an arrival a record.

mod arrival;
mod arrivals;
mod gathering;

ghost use Rattle.std.specs.Prelude.{◌≡◌, ◌≤◌, [], ℕ, IfErr, IfOk, IfSome, List, MatchResult};
ghost use Rattle.cn_texts.specs.Reading.Batch.{AnswersBatch, AreServable, IsBatch, IsBatchFault, clients_of_epochs};
ghost use Rattle.cn_texts.specs.Reading.Bounds.{AreBounds};
ghost use Rattle.cn_texts.specs.Reading.Gathered.{IsGathered, StaysServable};
ghost use Rattle.cn_texts.specs.Reading.Records.{HasStopped, records_of};
ghost use Rattle.cn_texts.specs.Reading.Stretch.{HasHeader, IsOpen};
ghost use Rattle.cn_texts.specs.declared.reading.records.RecordFault.TheVariants as no_record;

use crate::reading::batch::arrivals::ArrivalReader;
use crate::reading::batch::gathering::Gathering;
use crate::reading::batch_fault::{BatchCause, BatchFault};
use crate::reading::bounds::Bounds;
use crate::reading::telling::{ReadTelling, Telling};
pub use arrival::{Arrival, Heading};
use cn_ledger::Client;
use std::alloc::Global;
use std::hash::RandomState;
use std::io::Read;

/// How many records are read at most after one, before all of them are gathered: look-ups that follow one another at
/// once take less time than look-ups between reads.
const LATER: u64 = 63;

/// The epochs of a batch.
#[derive(Debug, Drop)]
pub struct Batch {
    /// The epochs, by rising numbers.
    pub epochs: Vec<BatchEpoch>,
}

/// The clients of one epoch of a batch, in the order of their records.
#[derive(Debug, Drop)]
pub struct BatchEpoch {
    /// The epoch's number.
    pub number: u64,
    /// Its clients.
    pub clients: Vec<Client>,
}

/// The epochs of a batch of which the header was read.
fn read_epochs<I: ReadTelling + Drop>(
    alloc: Global,
    source: &mut ArrivalReader<I>,
    gathering: Gathering,
) -> Result<Vec<BatchEpoch>, BatchFault>
    requires open { IsOpen source.old }
    requires none { IsGathered gathering [] }
    requires keeps { StaysServable source.old.bounds gathering }
    ensures answer { (text : List ℕ) → HasHeader I.remaining source.old text
        → MatchResult result (λ epochs. IsBatch source.old.bounds (records_of text) epochs.items)
        (IsBatchFault source.old.bounds (records_of text)) }
    ensures fits { IfOk result (λ epochs. AreServable source.old.bounds epochs.items) }
    ensures few { IfOk result (λ epochs. clients_of_epochs epochs.items ≤ source.old.bounds.records) }
    ensures told { IfErr result (λ fault. fault.cause ≡ BatchCause.Read
        → HasStopped I.failed source.new.records.value no_record.Read) }
{
    let bounds = source.bounds();
    let mut gathering = gathering;
    let mut stretch = Vec::new(alloc);
    loop {
        // The record too many is the last that is read.
        let left = bounds.records - (gathering.next() - 1);
        let end = source.read_stretch(1 + LATER.min(left), &mut stretch);
        gathering.gather(alloc, bounds, &stretch)?;
        let others = match end {
            Ok(others) => others,
            Err(cause) => {
                let at = gathering.next();
                return Err(BatchFault { at, cause });
            }
        };
        if !others {
            return gathering.finish(alloc);
        }
    }
}

/// The epochs of a batch that keeps within these bounds: a header `epoch,client,entry`, and then a record of three
/// numbers for each client, as `csv` reads them; or a header `epoch,client`, and then a record of two numbers for each,
/// whose entry is the client modulo the number of entries, which is at least 1. An epoch is a run of records of one
/// number, and the numbers rise. Whatever the reader gives, the epochs are such as a network with so many entries can
/// serve, and all of them have no more clients than the batch may have records.
///
/// # Errors
///
/// The first record that has a cause, with its first cause. A failed read is reported at the record that was being
/// read, want of memory at the one that was being read or gathered.
pub fn read_batch_within<R: Read + Drop>(
    alloc: Global,
    reader: R,
    bounds: Bounds,
    state: RandomState,
) -> Result<Batch, BatchFault>
    requires { AreBounds bounds }
    ensures answer { IfSome (R.remaining reader) (λ text.
        AnswersBatch bounds (records_of text) result) }
    ensures fits { IfOk result (λ batch. AreServable bounds batch.epochs.items) }
    ensures few { IfOk result (λ batch. clients_of_epochs batch.epochs.items ≤ bounds.records) }
{
    let telling = Telling::new(reader);
    let mut source = ArrivalReader::open(alloc, telling, bounds)?;
    let gathering = Gathering::new(alloc, state);
    let epochs = read_epochs(alloc, &mut source, gathering)?;
    Ok(Batch { epochs })
}
