//! Batches and lists of grants that are not large.

ghost use Rattle.std.specs.Prelude.{◌≡◌, ◌<◌, ◌≤◌, IfErr, IfOk, IfSome, MatchResult, false};
ghost use Rattle.cn_spec.specs.declared.limits.TheConstants.{MOST_RECORDS};
ghost use Rattle.cn_texts.specs.Grants.Printed.{IsNamedList};
ghost use Rattle.cn_texts.specs.Grants.TightList.{IsFlaw, IsOutside, IsTightList};
ghost use Rattle.cn_texts.specs.Reading.Batch.{AnswersBatch, AreServable, clients_of_epochs};
ghost use Rattle.cn_texts.specs.Reading.Bounds.{bounds_of};
ghost use Rattle.cn_texts.specs.Reading.Records.{records_of};

use cn_texts::{
    Batch, BatchFault, Bounds, Flaw, NamedEpoch, named_grants_within, read_batch_within,
};
use std::alloc::Global;
use std::hash::RandomState;
use std::io::Read;

/// The epochs of a batch that is not large: those that [`read_batch_within`] reads within its bounds.
///
/// # Errors
///
/// Those of [`read_batch_within`].
pub fn read_batch<R: Read + Drop>(
    alloc: Global,
    reader: R,
    entries: u32,
    state: RandomState,
) -> Result<Batch, BatchFault>
    requires { 0 < entries }
    ensures answer { IfSome (R.remaining reader) (λ text.
        AnswersBatch (bounds_of false entries) (records_of text) result) }
    ensures fits { IfOk result (λ batch. AreServable (bounds_of false entries) batch.epochs.items) }
    ensures few { IfOk result (λ batch. clients_of_epochs batch.epochs.items ≤ MOST_RECORDS) }
{
    read_batch_within(alloc, reader, Bounds::of(false, entries), state)
}

/// The epochs of a list of grants that is not large: those that [`named_grants_within`] finds.
///
/// # Errors
///
/// Those of [`named_grants_within`]. A record after [`cn_spec::limits::MOST_RECORDS`] others has the cause `Form`.
pub fn named_grants<R: Read + Drop>(alloc: Global, reader: R) -> Result<Vec<NamedEpoch>, Flaw>
    ensures answer { IfSome (R.remaining reader) (λ text. let records = records_of text in
        MatchResult result (λ epochs. IsNamedList MOST_RECORDS records epochs.items) (IsFlaw MOST_RECORDS records)) }
    ensures exact { IfSome (R.remaining reader) (λ text.
        IfErr result (λ flaw. IsTightList MOST_RECORDS (records_of text) → IsOutside flaw)) }
{
    named_grants_within(alloc, reader, false)
}
