//! The bitonic network.

ghost use Rattle.std.specs.Prelude.{◌≡◌, ℕ, ◌+◌, ◌^◌, ◌≤◌, ◌↔◌, map, IfOk, IsErrOf};
ghost use Rattle.std.specs.List.{range_with_len};
ghost use Rattle.cn_spec.specs.Networks as net;
ghost use Rattle.cn_spec.specs.Networks.{IsRow};
ghost use Rattle.cn_wiring.specs.Built.{IsBuilt};
ghost use Rattle.cn_tables.specs.Network.{exit_flows};
ghost use Rattle.cn_wiring.specs.Made.{IsTableOf};
ghost use Rattle.cn_tables.specs.Plan.{AllLoose};
ghost use Rattle.cn_tables.specs.Table.{IsFullFlow};
ghost use Rattle.cn_tables.specs.Widths.{IsWidth};
ghost use Rattle.cn_bitonic.specs.Order.{bitonic_made, bitonic_plan};
ghost use Rattle.cn_bitonic.specs.Parts.{BuildsBitonic};
ghost use Rattle.cn_bitonic.specs.Sizes.{bitonic_balancers, bitonic_depth};

use crate::merging::merger;
use cn_spec::laws;
use cn_spec::limits::MOST_BALANCERS;
use cn_wiring::{BuildFault, Counting, Draft, Kind, level_of, wires_below};
use std::alloc::{AllocError, Global};

/// The bitonic counting network of this width: `width` entries and exits, depth `L * (L + 1) / 2`, where `L` is the
/// logarithm of `width` to base 2, and half of `width` times the depth balancers (Aspnes, Herlihy, Shavit 1994,
/// section 3).
///
/// Balancers are numbered in the order in which they are made: the network over the first half of the wires, that over
/// the second half, and their merger. In a merger that of the even wires of the first list and the odd ones of the
/// second comes first, then that of the other wires, and then the last layer. So a width has one bitonic network, by
/// [`cn_wiring::laws::tables_are_unique`].
///
/// # Errors
/// [`BuildFault::Width`] if networks of this width are not built, and [`BuildFault::Memory`] if the network gets no
/// memory.
pub fn bitonic(alloc: Global, width: u32) -> Result<Counting, BuildFault>
    ensures width { IsErrOf result BuildFault.Width ↔ (¬ IsWidth width) }
    ensures accepted { IfOk result (λ _. IsWidth width) }
    ensures built { IfOk result (λ n. (level : ℕ) → width ≡ 2 ^ level
        → IsBuilt n Kind.Bitonic width width (bitonic_balancers level) (bitonic_depth level)) }
    ensures order { IfOk result (λ n. (level : ℕ) → width ≡ 2 ^ level
        → IsTableOf n.table (bitonic_plan level)) }
    ensures exits { IfOk result (λ n. (level : ℕ) → width ≡ 2 ^ level
        → (f : ℕ → ℕ) → IsFullFlow n.table f
        → exit_flows n.table f ≡ net.bitonic level (map f (range_with_len 0 width))) }
{
    let Some(level) = level_of(width) else {
        return Err(BuildFault::Width);
    };
    let depth = level * (level + 1) / 2;
    let mut draft = Draft::new(alloc, width)?;
    draft.reserve(width / 2 * depth)?;
    let entries = wires_below(alloc, width)?;
    let exits = bitonic_over(alloc, &mut draft, &entries)?;
    laws::bitonic_counts();
    Ok(draft.finish_counting(&exits, Kind::Bitonic, depth)?)
}

/// Adds the bitonic network over a list of wires to a draft, and gives its outputs: the networks over both halves of
/// the list, and their merger. The list's length is a power of two.
///
/// # Errors
/// `AllocError` if a list gets no memory. The draft may have some of the balancers.
fn bitonic_over(alloc: Global, draft: &mut Draft, wires: &[u32]) -> Result<Vec<u32>, AllocError>
    requires row { (level : ℕ) × IsRow level wires.now
        × (draft.old.balancers + bitonic_balancers level ≤ MOST_BALANCERS) }
    requires loose { AllLoose draft.old wires.now }
    ensures built { IfOk result (λ y. (level : ℕ) → IsRow level wires.now
        → BuildsBitonic draft.old draft.new wires.now y.items level) }
    ensures order { IfOk result (λ y. (level : ℕ) → IsRow level wires.now
        → bitonic_made level draft.old wires.now ≡ (draft.new, y.items)) }
{
    if wires.len() == 1 {
        return wires.to_vec(alloc);
    }
    let (front, back) = wires.split_at(wires.len() / 2);
    let x = bitonic_over(alloc, draft, front)?;
    let x2 = bitonic_over(alloc, draft, back)?;
    merger(alloc, draft, &x, &x2)
}
