//! Rows of wires.

ghost use Rattle.std.specs.Prelude.{◌≡◌, IfOk};
ghost use Rattle.std.specs.List.{range_with_len};

use std::alloc::{AllocError, Global};

/// The wires 0 to `count - 1`, in order.
///
/// # Errors
/// `AllocError` if the list gets no memory.
pub fn wires_below(alloc: Global, count: u32) -> Result<Vec<u32>, AllocError>
    ensures { IfOk result (λ wires. wires.items ≡ range_with_len 0 count) }
{
    (0..count).collect(alloc)
}
