//! The records of a text, one after the other.

ghost use Rattle.std.specs.Prelude.{◌≡◌, ◌<◌, ◌∷◌, ◌++◌, [], ℕ, List, IfErr, IfSome, IfOk, OnOk, length, slice_index_or};
ghost use Rattle.std.specs.Bool.{MatchBool};
ghost use Rattle.std.specs.Cmp.Lexicographic.{pointwise};
ghost use Rattle.std.specs.Str.{bytes_eq};
ghost use Rattle.csv.specs.Records.{fields_of};
ghost use Rattle.cn_texts.specs.Reading.Records.{HasRead, HasStopped, IsPlain, Record, records_of};

use crate::reading::telling::ReadTelling;
use csv::{ByteRecord, Reader, ReaderBuilder};
use std::alloc::{AllocError, Global};
use std::io::Read;

/// Why no record came.
#[derive(Clone, Copy)]
pub(crate) enum RecordFault {
    /// The reader failed.
    Read,
    /// A growth was refused.
    Memory,
}

/// A reader of records of any length, with no header set aside. Its header is set, and empty: else it would keep the
/// first record twice. It is boxed, and not made in the caller's frame, for it holds a buffer of 8 KB, of which that
/// frame would have copies.
///
/// # Errors
/// `AllocError` if there is no memory for it.
#[inline(never)]
pub(crate) fn open_records<R: Read + Drop>(
    alloc: Global,
    reader: R,
) -> Result<Box<Reader<R>>, AllocError>
    ensures plain { IfOk result (λ records. IsPlain records.value) }
    ensures opened { IfOk result (λ records.
        IfSome (R.remaining reader) (λ text. HasRead R.remaining records.value text [])) }
{
    let mut builder = ReaderBuilder::new();
    let mut records = Box::new(alloc, builder.flexible(true).from_reader(alloc, reader))?;
    match records.set_byte_headers(ByteRecord::new(alloc)) {
        Ok(()) => Ok(records),
        Err(_) => Err(AllocError),
    }
}

/// Reads the next record into `fields`, and returns whether there was one.
///
/// # Errors
/// `Read` if the last read of the reader failed, else `Memory`. No record comes after it.
pub(crate) fn next_record<R: ReadTelling>(
    records: &mut Reader<R>,
    fields: &mut ByteRecord,
) -> Result<bool, RecordFault>
    requires { IsPlain records.old }
    ensures plain { OnOk result (IsPlain records.new) }
    ensures reads { IfOk result (λ found. (text : List ℕ) (before : List Record)
        → HasRead R.remaining records.old text before
        → MatchBool found (HasRead R.remaining records.new text (before
        ++ fields_of fields.new ∷ [])) (records_of text ≡ before)) }
    ensures stops { IfErr result (HasStopped R.failed records.new) }
{
    match records.read_byte_record(fields) {
        Ok(found) => Ok(found),
        Err(_) if records.get_ref().has_failed() => Err(RecordFault::Read),
        Err(_) => Err(RecordFault::Memory),
    }
}

/// The field at this place of a record.
#[tactic(auto, using(crate::proofs::ReadingLemmas::RecordLists::field_within))]
pub(crate) fn field(fields: &ByteRecord, place: usize) -> &[u8]
    requires { place < length (fields_of fields.now) }
    ensures { result.now ≡ slice_index_or (fields_of fields.now) place [] }
{
    fields.get(place).unwrap()
}

/// Whether the record has these three fields.
pub(crate) fn is_header(fields: &ByteRecord, first: &[u8], second: &[u8], third: &[u8]) -> bool
    ensures { result
        ≡ pointwise bytes_eq (fields_of fields.now) (first.now ∷ second.now ∷ third.now ∷ []) }
{
    fields.len() == 3
        && field(fields, 0) == first
        && field(fields, 1) == second
        && field(fields, 2) == third
}

/// Whether the record has these two fields.
pub(crate) fn is_short_header(fields: &ByteRecord, first: &[u8], second: &[u8]) -> bool
    ensures { result ≡ pointwise bytes_eq (fields_of fields.now) (first.now ∷ second.now ∷ []) }
{
    fields.len() == 2 && field(fields, 0) == first && field(fields, 1) == second
}
