//! The caller of the page of cn_names.

ghost use Rattle.std.specs.Prelude.{◌≡◌, [], IfOk};

use cn_names::Names;
use std::alloc::{AllocError, Global};
use std::hash::RandomState;

/// A map with nobody.
pub fn nobody(alloc: Global, state: RandomState) -> Result<Names, AllocError>
    ensures { IfOk result (λ names. names ≡ []) }
{
    Names::new(alloc, state)
}
