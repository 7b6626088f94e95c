//! The caller of the page of cn_report.

ghost use Rattle.std.specs.Prelude.{IfOk};
ghost use Rattle.cn_spec.specs.declared.limits.TheConstants.{MOST_RECORDS};
ghost use Rattle.cn_texts.specs.Grants.TightList.{IsTightList};
ghost use Rattle.cn_texts.specs.Reading.Records.{records_of};

use cn_report::{Flaw, named_grants};
use std::alloc::Global;

/// How many epochs a list of grants has, if it is tight.
pub fn epochs_in(alloc: Global, list: &[u8]) -> Result<usize, Flaw>
    ensures { IfOk result (λ _. IsTightList MOST_RECORDS (records_of list.now)) }
{
    let epochs = named_grants(alloc, list)?;
    Ok(epochs.len())
}
