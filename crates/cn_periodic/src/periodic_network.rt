//! The periodic network.

ghost use Rattle.std.specs.Prelude.{◌≡◌, ℕ, ◌+◌, ◌^◌, ◌≤◌, ◌↔◌, map, IfOk, IsErrOf};
ghost use Rattle.std.specs.List.{range_with_len};
ghost use Rattle.cn_spec.specs.Networks as net;
ghost use Rattle.cn_spec.specs.Networks.{IsRow};
ghost use Rattle.cn_wiring.specs.Built.{IsBuilt};
ghost use Rattle.cn_tables.specs.Network.{exit_flows};
ghost use Rattle.cn_wiring.specs.Made.{IsTableOf};
ghost use Rattle.cn_tables.specs.Plan.{AllLoose};
ghost use Rattle.cn_tables.specs.Table.{IsFullFlow};
ghost use Rattle.cn_tables.specs.Widths.{IsWidth};
ghost use Rattle.cn_periodic.specs.Order.{periodic_plan, series_made};
ghost use Rattle.cn_periodic.specs.Parts.{BuildsPeriodic};
ghost use Rattle.cn_periodic.specs.Sizes.{periodic_balancers, periodic_depth};

use crate::blocks::block;
use cn_spec::laws;
use cn_spec::limits::MOST_BALANCERS;
use cn_wiring::{BuildFault, Counting, Draft, Kind, level_of, wires_below};
use std::alloc::{AllocError, Global};

/// The periodic counting network of this width: `width` entries and exits, depth `L * L`, where `L` is the logarithm of
/// `width` to base 2, and half of `width` times the depth balancers (Aspnes, Herlihy, Shavit 1994, section 4).
///
/// It is `L` blocks in series, and balancers are numbered in the order in which they are made: one block after the
/// other. In a block that over the A-cochain comes first, then that over the B-cochain, and then the last layer. So a
/// width has one periodic network, by [`cn_wiring::laws::tables_are_unique`].
///
/// # Errors
/// [`BuildFault::Width`] if networks of this width are not built, and [`BuildFault::Memory`] if the network gets no
/// memory.
pub fn periodic(alloc: Global, width: u32) -> Result<Counting, BuildFault>
    ensures width { IsErrOf result BuildFault.Width ↔ (¬ IsWidth width) }
    ensures accepted { IfOk result (λ _. IsWidth width) }
    ensures built { IfOk result (λ n. (level : ℕ) → width ≡ 2 ^ level
        → IsBuilt n Kind.Periodic width width (periodic_balancers level) (periodic_depth level)) }
    ensures order { IfOk result (λ n. (level : ℕ) → width ≡ 2 ^ level
        → IsTableOf n.table (periodic_plan level)) }
    ensures exits { IfOk result (λ n. (level : ℕ) → width ≡ 2 ^ level
        → (f : ℕ → ℕ) → IsFullFlow n.table f
        → exit_flows n.table f ≡ net.periodic level (map f (range_with_len 0 width))) }
{
    let Some(level) = level_of(width) else {
        return Err(BuildFault::Width);
    };
    let depth = level * level;
    let mut draft = Draft::new(alloc, width)?;
    draft.reserve(width / 2 * depth)?;
    let entries = wires_below(alloc, width)?;
    let exits = blocks_in_series(alloc, &mut draft, &entries, level)?;
    laws::periodic_counts();
    Ok(draft.finish_counting(&exits, Kind::Periodic, depth)?)
}

/// Adds the periodic network over a list of `2 ^ level` wires to a draft, and gives its outputs: `level` blocks, each
/// over the outputs of the one before.
///
/// # Errors
/// `AllocError` if a list gets no memory. The draft may have some of the balancers.
fn blocks_in_series(
    alloc: Global,
    draft: &mut Draft,
    wires: &[u32],
    level: u32,
) -> Result<Vec<u32>, AllocError>
    requires row { IsRow level wires.now }
    requires room { draft.old.balancers + periodic_balancers level ≤ MOST_BALANCERS }
    requires loose { AllLoose draft.old wires.now }
    ensures built { IfOk result (λ y.
        BuildsPeriodic draft.old draft.new wires.now y.items level) }
    ensures order { IfOk result (λ y.
        series_made level level draft.old wires.now ≡ (draft.new, y.items)) }
{
    let mut outputs = wires.to_vec(alloc)?;
    for _done in 0..level {
        outputs = block(alloc, draft, &outputs)?;
    }
    Ok(outputs)
}
