//! The caller of the page of cn_tree.

ghost use Rattle.std.specs.Prelude.{◌≡◌, IfOk};

use cn_tree::tree;
use cn_wiring::{BuildFault, Counting, laws};
use std::alloc::Global;

/// Two trees that are built alike have one table.
pub fn same_trees(alloc: Global) -> Result<(Counting, Counting), BuildFault>
    ensures { IfOk result (λ r. r.0.table ≡ r.1.table) }
{
    let one = tree(alloc, 8)?;
    let other = tree(alloc, 8)?;
    laws::tables_are_unique();
    Ok((one, other))
}
