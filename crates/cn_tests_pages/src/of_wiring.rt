//! The caller of the page of cn_wiring.

use cn_wiring::Draft;
use std::alloc::{AllocError, Global};

/// A draft of one balancer, whose two inputs are one wire.
pub fn forked(alloc: Global) -> Result<Draft, AllocError> {
    let mut draft = Draft::new(alloc, 1)?;
    if draft.is_loose(0) {
        draft.fork(0)?;
    }
    Ok(draft)
}
