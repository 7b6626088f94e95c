//! More owners of a floor. That it has as many as it can have only this file says, each time by a clone that was
//! refused, and nothing copies it.

ghost use Rattle.std.specs.Arc.{arc_value};
ghost use Rattle.std.specs.Prelude.{◌≡◌, IfOk};

use crate::places::FloorShare;
use std::alloc::AllocError;
use std::sync::Arc;

/// A floor has as many owners as it can have, 2^63.
#[derive(Drop)]
pub(crate) struct Full {
    error: AllocError,
}

/// Another share of the floor.
///
/// # Errors
/// `Full` if it has as many owners as it can have.
pub(crate) fn another_share(share: &FloorShare) -> Result<FloorShare, Full>
    ensures { IfOk result (λ other. arc_value other ≡ arc_value share.now) }
{
    Arc::try_clone(share).map_err(|error| Full { error })
}
