//! The caller of the page of cn_periodic.

ghost use Rattle.std.specs.Prelude.{◌≡◌, IfOk};

use cn_periodic::periodic;
use cn_wiring::{BuildFault, Counting, laws};
use std::alloc::Global;

/// Two networks that are built alike have one table.
pub fn same_networks(alloc: Global) -> Result<(Counting, Counting), BuildFault>
    ensures { IfOk result (λ r. r.0.table ≡ r.1.table) }
{
    let one = periodic(alloc, 8)?;
    let other = periodic(alloc, 8)?;
    laws::tables_are_unique();
    Ok((one, other))
}
