//! The caller of the page of cn_nets.

ghost use Rattle.std.specs.Prelude.{◌≡◌, IfOk};

use cn_nets::{Net, laws};
use cn_wiring::{BuildFault, Counting};
use std::alloc::Global;

/// A network that is built twice is one network.
pub fn built_twice(alloc: Global, net: &Net) -> Result<(Counting, Counting), BuildFault>
    ensures { IfOk result (λ r. r.0 ≡ r.1) }
{
    let one = net.build(alloc)?;
    let other = net.build(alloc)?;
    laws::networks_are_unique();
    Ok((one, other))
}
