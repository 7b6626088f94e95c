//! How calls answer: a status, and what is asked for, written where the caller wants it.

ghost use Rattle.std.specs.Prelude.{◌≡◌, ◌<◌, Err, IsOkAnd, Ok, Some};
ghost use Rattle.cn_handles.specs.Statuses.{status_of_refusal};
ghost use Rattle.cn_handles.specs.declared.handles.refusal.Refusal.{Refusal};
ghost use Rattle.cn_handles.specs.declared.handles.refusal.TheConstants.{DONE};

use cn_handles::{DONE, Handle, Held, Refusal};

/// The status of what was done or refused.
pub(crate) fn status(answer: Result<(), Refusal>) -> u32
    ensures done { result ≡ DONE → answer ≡ Ok tt }
    ensures refused { 0 < result → (r : Refusal) × (answer ≡ Err r) × (result ≡ status_of_refusal r) }
{
    match answer {
        Ok(()) => DONE,
        Err(refusal) => refusal.status(),
    }
}

/// Writes what was answered, if it was not refused, and returns the status.
pub(crate) fn write<T: Copy>(answer: Result<T, Refusal>, to: &mut T) -> u32
    ensures done { result ≡ DONE → answer ≡ Ok to.new }
    ensures kept { 0 < result → to.new ≡ to.old }
    ensures refused { 0 < result → (r : Refusal) × (answer ≡ Err r) × (result ≡ status_of_refusal r) }
{
    match answer {
        Ok(value) => {
            *to = value;
            DONE
        }
        Err(refusal) => refusal.status(),
    }
}

/// Puts what was answered into a handle, if it was not refused, and returns the status.
pub(crate) fn put(answer: Result<Box<Held>, Refusal>, to: &mut Handle) -> u32
    ensures done { result ≡ DONE → IsOkAnd answer (λ b. to.new.held ≡ Some b.value) }
    ensures kept { 0 < result → to.new.held ≡ to.old.held }
    ensures refused { 0 < result → (r : Refusal) × (answer ≡ Err r) × (result ≡ status_of_refusal r) }
{
    match answer {
        Ok(value) => {
            to.put(value);
            DONE
        }
        Err(refusal) => refusal.status(),
    }
}
