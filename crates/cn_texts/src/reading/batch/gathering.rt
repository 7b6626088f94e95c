//! The epochs of a batch, as its records come.

ghost use Rattle.std.specs.Prelude.{◌≡◌, ◌≢◌, ◌≤◌, ◌+◌, ◌⊎◌, ◌∷◌, ◌++◌, [], List, None, Some, MatchResult, OnErr, OnOk, IfErr, IfOk, vec_capacity};
ghost use Rattle.cn_texts.specs.declared.reading.batch.arrival.Arrival.{Arrival};
ghost use Rattle.cn_texts.specs.declared.reading.batch.arrival.Heading.{Heading};
ghost use Rattle.cn_texts.specs.Reading.Arrival.{arrival_cause};
ghost use Rattle.cn_texts.specs.Reading.Batch.{AreServable, IsBatch, IsBatchFault, clients_of_epochs};
ghost use Rattle.cn_texts.specs.Reading.Bounds.{AreBounds};
ghost use Rattle.cn_texts.specs.declared.reading.bounds.Bounds.{Bounds};
ghost use Rattle.cn_texts.specs.Reading.Gathered.{HoldsArrivals, IsGathered, StaysServable, adding_cause, ended_after};
ghost use Rattle.cn_texts.specs.Reading.Records.{Record};
ghost use Rattle.cn_texts.specs.Reading.Stretch.{AreRead, Gathers};

use crate::reading::batch::BatchEpoch;
use crate::reading::batch::arrival::Arrival;
use crate::reading::batch_fault::{BatchCause, BatchFault};
use crate::reading::bounds::Bounds;
use crate::reading::scatter::Scatter;
use cn_ledger::Client;
use indexmap::IndexSet;
use std::alloc::{AllocError, Global};
use std::hash::RandomState;
use std::mem;

/// The epochs that ended, and the latest, with its clients as a set.
#[derive(Drop)]
pub(crate) struct Gathering {
    ended: Vec<BatchEpoch>,
    latest: BatchEpoch,
    standing: IndexSet<u64, Scatter>,
    /// The number of the next record.
    next: u64,
}

impl Gathering {
    /// What is known before the first record: no epoch.
    pub(crate) fn new(alloc: Global, state: RandomState) -> Self
        ensures none { IsGathered result [] }
        ensures keeps { (bounds : Bounds) → AreBounds bounds → StaysServable bounds result }
    {
        Gathering {
            ended: Vec::new(alloc),
            latest: BatchEpoch {
                number: 0,
                clients: Vec::new(alloc),
            },
            standing: IndexSet::with_hasher(alloc, Scatter::drawn(state)),
            next: 1,
        }
    }

    /// The number of the next record.
    pub(crate) fn next(&self) -> u64
        ensures { result ≡ self.now.next }
    {
        self.next
    }

    /// Ends the latest epoch, if it has clients, and opens another, which has no memory yet.
    fn open_epoch(&mut self, alloc: Global, number: u64) -> Result<(), AllocError>
        ensures turned { OnOk result ((self.new.ended.items ≡ ended_after self.old)
            × (self.new.latest.number ≡ number) × (self.new.latest.clients.items ≡ [])
            × (self.new.standing.keys ≡ [])) }
        ensures next { self.new.next ≡ self.old.next }
        ensures small { vec_capacity self.new.latest.clients ≡ 0 }
    {
        let next = BatchEpoch {
            number,
            clients: Vec::new(alloc),
        };
        let latest = mem::replace(&mut self.latest, next);
        // Takes the time of the clients that go. `clear` would take that of the whole table at each epoch.
        self.standing.truncate(0);
        if latest.clients.is_empty() {
            return Ok(());
        }
        self.ended.push(latest)?;
        Ok(())
    }

    /// Comes to this epoch.
    fn turn_to(&mut self, alloc: Global, epoch: u64) -> Result<(), AllocError>
        requires { self.old.latest.number ≤ epoch }
        ensures holds { OnOk result ((self.new.latest.number ≡ epoch)
            × ((before : List Arrival) → HoldsArrivals self.old before → HoldsArrivals self.new before)) }
        ensures keeps { OnOk result ((bounds : Bounds) → StaysServable bounds self.old
            → StaysServable bounds self.new) }
        ensures next { self.new.next ≡ self.old.next }
    {
        if self.latest.number == epoch {
            return Ok(());
        }
        self.open_epoch(alloc, epoch)?;
        Ok(())
    }

    /// Adds a client of the latest epoch, which is the next record, if nothing is wrong with it. One look-up finds
    /// whether it stands there and puts it in.
    fn add_to_latest(&mut self, bounds: Bounds, client: Client) -> Result<(), BatchCause>
        requires { AreBounds bounds }
        ensures ok { OnOk result ((adding_cause bounds self.old client ≡ None)
            × (self.new.ended ≡ self.old.ended)
            × (self.new.latest.number ≡ self.old.latest.number)
            × (self.new.latest.clients.items ≡ self.old.latest.clients.items ++ client ∷ [])
            × (self.new.standing.keys ≡ self.old.standing.keys ++ client.id ∷ [])
            × (self.new.next ≡ self.old.next + 1)) }
        ensures stays { OnErr result (self.new.next ≡ self.old.next) }
        ensures err { IfErr result (λ cause.
            (adding_cause bounds self.old client ≡ Some cause) ⊎ (cause ≡ BatchCause.Memory)) }
        ensures not_read { IfErr result (λ cause. cause ≢ BatchCause.Read) }
    {
        match self.standing.insert(client.id) {
            Ok(true) => {}
            Ok(false) => return Err(BatchCause::Duplicate),
            Err(_) => return Err(BatchCause::Memory),
        }
        if self.latest.clients.len() as u64 >= bounds.clients {
            return Err(BatchCause::EpochFull);
        }
        if self.next > bounds.records {
            return Err(BatchCause::BatchFull);
        }
        if self.latest.clients.push(client).is_err() {
            return Err(BatchCause::Memory);
        }
        self.next += 1;
        Ok(())
    }

    /// Adds an arrival, which is the next record, if nothing is wrong with it.
    fn add(&mut self, alloc: Global, bounds: Bounds, arrival: Arrival) -> Result<(), BatchCause>
        requires { StaysServable bounds self.old }
        ensures ok { OnOk result ((before : List Arrival) → IsGathered self.old before
            → (arrival_cause bounds before arrival ≡ None)
            × IsGathered self.new (before ++ arrival ∷ [])) }
        ensures keeps { OnOk result (StaysServable bounds self.new) }
        ensures next { OnOk result (self.new.next ≡ self.old.next + 1) }
        ensures stays { OnErr result (self.new.next ≡ self.old.next) }
        ensures err { IfErr result (λ cause. (before : List Arrival) → IsGathered self.old before
            → (arrival_cause bounds before arrival ≡ Some cause) ⊎ (cause ≡ BatchCause.Memory)) }
        ensures not_read { IfErr result (λ cause. cause ≢ BatchCause.Read) }
    {
        if arrival.epoch < self.latest.number {
            return Err(BatchCause::EpochBackwards);
        }
        if arrival.entry >= u64::from(bounds.entries) {
            return Err(BatchCause::EntryRange);
        }
        self.turn_to(alloc, arrival.epoch)?;
        let client = Client {
            id: arrival.client,
            entry: arrival.entry,
        };
        self.add_to_latest(bounds, client)
    }

    /// Gathers arrivals, those of the next records.
    ///
    /// # Errors
    /// The first of them that has a cause, and its first cause.
    pub(crate) fn gather(
        &mut self,
        alloc: Global,
        bounds: Bounds,
        arrivals: &[Arrival],
    ) -> Result<(), BatchFault>
        requires { StaysServable bounds self.old }
        ensures { Gathers bounds arrivals.now self.old self.new result }
    {
        for arrival in arrivals {
            let at = self.next;
            if let Err(cause) = self.add(alloc, bounds, *arrival) {
                return Err(BatchFault { at, cause });
            }
        }
        Ok(())
    }

    /// Ends the latest epoch: the epochs of the batch, which has no other record.
    ///
    /// # Errors
    /// Want of memory, at the record that is not there.
    pub(crate) fn finish(self, alloc: Global) -> Result<Vec<BatchEpoch>, BatchFault>
        ensures answer { (heading : Heading) (bounds : Bounds) (records : List Record) (arrivals : List Arrival)
            → AreRead heading bounds records arrivals → IsGathered self arrivals
            → MatchResult result (λ epochs. IsBatch bounds records epochs.items) (IsBatchFault bounds records) }
        ensures fits { IfOk result (λ epochs. (bounds : Bounds) → StaysServable bounds self
            → AreServable bounds epochs.items) }
        ensures few { IfOk result (λ epochs. (bounds : Bounds) → StaysServable bounds self
            → clients_of_epochs epochs.items ≤ bounds.records) }
        ensures memory { IfErr result (λ fault. fault ≡ record { at = self.next; cause = BatchCause.Memory }) }
    {
        let mut gathering = self;
        match gathering.open_epoch(alloc, 0) {
            Ok(()) => Ok(gathering.ended),
            Err(_) => Err(BatchFault {
                at: gathering.next,
                cause: BatchCause::Memory,
            }),
        }
    }
}
