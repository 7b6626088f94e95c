//! What a closed floor left, of what a handle has.

ghost use Rattle.std.specs.Prelude.{◌≡◌, length, IfErr, IfOk, OnErr, OnOk};
ghost use Rattle.cn_handles.specs.Handles.{record_held};
ghost use Rattle.cn_handles.specs.Records.{list_of};
ghost use Rattle.cn_handles.specs.Refusals.{NotCopied, NotThere, WithRecord};

use crate::handles::floor_record::RecordList;
use crate::handles::held::Held;
use crate::handles::refusal::Refusal;

/// How long a list of the record is.
///
/// # Errors
/// `Nothing` if there is no record.
pub fn list_size(held: &Held, which: RecordList) -> Result<u64, Refusal>
    ensures ok { IfOk result (λ n.
        WithRecord (record_held held.now) (λ r. n ≡ length (list_of which r))) }
    ensures refused { IfErr result (NotThere (record_held held.now)) }
{
    Ok(held.record()?.list(which).len() as u64)
}

/// Copies a list of the record.
///
/// # Errors
/// The first that stands: `Nothing`, `Size`. Then nothing has changed.
pub fn copy_list(held: &Held, which: RecordList, to: &mut [u64]) -> Result<(), Refusal>
    ensures ok { OnOk result (WithRecord (record_held held.now) (λ r. to.new ≡ list_of which r)) }
    ensures err { OnErr result (to.new ≡ to.old) }
    ensures refused { IfErr result (NotCopied (record_held held.now) which (length to.old)) }
{
    let list = held.record()?.list(which);
    if list.len() != to.len() {
        return Err(Refusal::Size);
    }
    to.copy_from_slice(list);
    Ok(())
}
