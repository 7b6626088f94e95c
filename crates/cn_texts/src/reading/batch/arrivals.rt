//! The arrivals of a batch, read one after another.

ghost use Rattle.std.specs.Prelude.{◌≡◌, ◌<◌, ◌≤◌, ◌⊎◌, ◌∷◌, ◌++◌, [], ℕ, Err, IfErr, IfOk, IfSome, List, MatchOption, MatchResult, Ok, OnOk, Some, length, true};
ghost use Rattle.cn_texts.specs.Reading.Arrival.{arrival_in};
ghost use Rattle.cn_texts.specs.Reading.Batch.{IsBatchFault, IsOfReading, batch_cause_of_fault};
ghost use Rattle.cn_texts.specs.Reading.Bounds.{AreBounds};
ghost use Rattle.cn_texts.specs.declared.reading.bounds.Bounds.{Bounds};
ghost use Rattle.cn_texts.specs.Reading.Heading.{heading_of};
ghost use Rattle.cn_texts.specs.Reading.Records.{HasRead, IsPlain, IsTold, Record, records_of};
ghost use Rattle.cn_texts.specs.Reading.Stretch.{HasHeader, HasSameHeader, IsOpen, ReadsStretch};

use crate::reading::batch::arrival::{Arrival, Heading, arrival_of, heading_of};
use crate::reading::batch_fault::{BatchCause, BatchFault};
use crate::reading::bounds::Bounds;
use crate::reading::records::{next_record, open_records};
use crate::reading::telling::ReadTelling;
use csv::{ByteRecord, Reader};
use std::alloc::Global;

/// More bytes than a record of numbers takes, with quotes and a line end.
const LONGEST_RECORD: u64 = 128;

/// A batch that is read, record by record.
#[derive(Drop)]
pub(crate) struct ArrivalReader<R: ReadTelling + Drop> {
    records: Box<Reader<R>>,
    fields: ByteRecord,
    heading: Heading,
    /// Within what it keeps.
    bounds: Bounds,
}

/// Reads the header.
fn read_header<R: ReadTelling>(
    records: &mut Reader<R>,
    fields: &mut ByteRecord,
) -> Result<Heading, BatchCause>
    requires { IsPlain records.old }
    ensures plain { OnOk result (IsPlain records.new) }
    ensures ok { IfOk result (λ heading. (text : List ℕ) → HasRead R.remaining records.old text []
        → (fields : Record) × HasRead R.remaining records.new text (fields ∷ [])
        × (heading_of fields ≡ Some heading)) }
    ensures err { IfErr result (λ cause. (bounds : Bounds) (text : List ℕ)
        → HasRead R.remaining records.old text []
        → IsBatchFault bounds (records_of text) (record { at = 0; cause = cause })) }
    ensures told { IfErr result (IsTold R.failed batch_cause_of_fault records.new) }
{
    if !next_record(records, fields)? {
        return Err(BatchCause::Header);
    }
    match heading_of(fields) {
        Some(heading) => Ok(heading),
        None => Err(BatchCause::Header),
    }
}

impl<R: ReadTelling + Drop> ArrivalReader<R> {
    /// Opens a batch that keeps within these bounds, and reads its header.
    ///
    /// # Errors
    /// The fault of the batch at record 0, if it has one. A failed read and want of memory are reported there.
    pub(crate) fn open(alloc: Global, reader: R, bounds: Bounds) -> Result<Self, BatchFault>
        requires { AreBounds bounds }
        ensures open { IfOk result IsOpen }
        ensures header { IfSome (R.remaining reader) (λ text. MatchResult result
            (λ source. HasHeader R.remaining source text) (IsBatchFault bounds (records_of text))) }
        ensures bounds { IfOk result (λ source. source.bounds ≡ bounds) }
    {
        let mut records = open_records(alloc, reader)?;
        let mut fields = ByteRecord::new(alloc);
        match read_header(&mut records, &mut fields) {
            Ok(heading) => Ok(ArrivalReader {
                records,
                fields,
                heading,
                bounds,
            }),
            Err(cause) => Err(BatchFault { at: 0, cause }),
        }
    }

    /// Within what the batch keeps.
    pub(crate) fn bounds(&self) -> Bounds
        ensures { result ≡ self.now.bounds }
    {
        self.bounds
    }

    /// The arrival of the next record, if there is one.
    fn next_arrival(&mut self) -> Result<Option<Arrival>, BatchCause>
        requires { IsOpen self.old }
        ensures plain { OnOk result (IsPlain self.new.records.value) }
        ensures same { HasSameHeader self.old self.new }
        ensures next { IfOk result (λ next. (text : List ℕ) (before : List Record)
            → HasRead R.remaining self.old.records.value text before
            → MatchOption next (records_of text ≡ before) (λ arrival.
            (fields : Record) × HasRead R.remaining self.new.records.value text (before ++ fields ∷ [])
            × (arrival_in self.old.heading self.old.bounds fields ≡ Ok arrival))) }
        ensures refused { IfErr result (λ cause. (text : List ℕ) (before : List Record)
            → HasRead R.remaining self.old.records.value text before
            → ((fields : Record) × HasRead R.remaining self.new.records.value text (before ++ fields ∷ [])
            × (arrival_in self.old.heading self.old.bounds fields ≡ Err cause)) ⊎ IsOfReading cause) }
        ensures told { IfErr result (IsTold R.failed batch_cause_of_fault self.new.records.value) }
    {
        if !next_record(&mut self.records, &mut self.fields)? {
            return Ok(None);
        }
        Ok(Some(arrival_of(&self.fields, self.heading, self.bounds)?))
    }

    /// Whether the next record was read along with the last, if it is one of numbers: then nothing is waited for.
    fn is_next_there(&self) -> bool {
        let given = self.records.get_ref().given();
        given.saturating_sub(self.records.position().byte()) >= LONGEST_RECORD
    }

    /// Reads a stretch in place of the arrivals that were there: the next arrival, and those after it that were read
    /// along, up to so many in all. It ends sooner if the text does or a record has none. Returns whether others may
    /// come.
    ///
    /// # Errors
    /// The cause for which the record after them has no arrival.
    pub(crate) fn read_stretch(
        &mut self,
        most: u64,
        arrivals: &mut Vec<Arrival>,
    ) -> Result<bool, BatchCause>
        requires open { IsOpen self.old }
        requires some { 0 < most }
        ensures reads { ReadsStretch R.remaining self.old self.new arrivals.new.items result }
        ensures told { IfErr result (IsTold R.failed batch_cause_of_fault self.new.records.value) }
        ensures some { IfOk result (λ others. others ≡ true → 0 < length arrivals.new.items) }
        ensures most { length arrivals.new.items ≤ most }
    {
        arrivals.clear();
        for _taken in 0..most {
            let Some(arrival) = self.next_arrival()? else {
                return Ok(false);
            };
            if arrivals.push(arrival).is_err() {
                return Err(BatchCause::Memory);
            }
            if !self.is_next_there() {
                return Ok(true);
            }
        }
        Ok(true)
    }
}
