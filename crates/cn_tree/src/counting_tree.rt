//! The counting tree.

ghost use Rattle.std.specs.Prelude.{◌≡◌, ℕ, ◌+◌, ◌-◌, ◌^◌, ◌≤◌, ◌↔◌, [], ◌∷◌, length, map, IfOk, IsErrOf};
ghost use Rattle.cn_spec.specs.Networks as net;
ghost use Rattle.cn_spec.specs.Networks.{IsRow};
ghost use Rattle.cn_wiring.specs.Built.{IsBuilt};
ghost use Rattle.cn_tables.specs.Network.{exit_flows};
ghost use Rattle.cn_wiring.specs.Made.{IsTableOf};
ghost use Rattle.cn_tables.specs.Plan.{AllLoose, Builds, IsFlow};
ghost use Rattle.cn_tables.specs.Table.{IsFullFlow};
ghost use Rattle.cn_tables.specs.Widths.{IsWidth};
ghost use Rattle.cn_tree.specs.Order.{tree_made, tree_plan};

use cn_spec::laws;
use cn_spec::limits::MOST_BALANCERS;
use cn_wiring::{BuildFault, Counting, Draft, Kind, level_of};
use std::alloc::{AllocError, Global};

/// The counting tree of this width: one entry and `width` exits, depth `L`, where `L` is the logarithm of `width` to
/// base 2, and `width - 1` balancers (Shavit, Zemach 1996, section 2).
///
/// Balancers are numbered in the order in which they are made, which is preorder: the root, the tree on its output 0,
/// and then that on its output 1. So a width has one tree, by [`cn_wiring::laws::tables_are_unique`].
///
/// # Errors
/// [`BuildFault::Width`] if networks of this width are not built, and [`BuildFault::Memory`] if the network gets no
/// memory.
pub fn tree(alloc: Global, width: u32) -> Result<Counting, BuildFault>
    ensures width { IsErrOf result BuildFault.Width ↔ (¬ IsWidth width) }
    ensures accepted { IfOk result (λ _. IsWidth width) }
    ensures built { IfOk result (λ n. (level : ℕ) → width ≡ 2 ^ level
        → IsBuilt n Kind.Tree 1 width (width - 1) level) }
    ensures order { IfOk result (λ n. (level : ℕ) → width ≡ 2 ^ level
        → IsTableOf n.table (tree_plan level)) }
    ensures exits { IfOk result (λ n. (level : ℕ) → width ≡ 2 ^ level
        → (f : ℕ → ℕ) → IsFullFlow n.table f → exit_flows n.table f ≡ net.tree level (f 0)) }
{
    let Some(level) = level_of(width) else {
        return Err(BuildFault::Width);
    };
    let mut draft = Draft::new(alloc, 1)?;
    draft.reserve(width - 1)?;
    let exits = grow(alloc, &mut draft, 0, level)?;
    laws::tree_counts();
    Ok(draft.finish_counting(&exits, Kind::Tree, level)?)
}

/// Adds the counting tree of `2 ^ level` exits on a wire to a draft, and gives its outputs, from exit 0 up: the trees
/// on both outputs of the root, interleaved.
///
/// # Errors
/// `AllocError` if a list gets no memory. The draft may have some of the balancers.
fn grow(alloc: Global, draft: &mut Draft, wire: u32, level: u32) -> Result<Vec<u32>, AllocError>
    requires room { draft.old.balancers + (2 ^ level - 1) ≤ MOST_BALANCERS }
    requires loose { AllLoose draft.old (wire ∷ []) }
    ensures order { IfOk result
        (λ exits. tree_made level draft.old wire ≡ (draft.new, exits.items)) }
    ensures built { IfOk result (λ exits.
        Builds draft.old draft.new (wire ∷ []) exits.items level (2 ^ level - 1)) }
    ensures row { IfOk result (λ exits. IsRow level exits.items) }
    ensures flow { IfOk result (λ exits. (f : ℕ → ℕ) → IsFlow draft.new f
        → map f exits.items ≡ net.tree level (f wire)) }
{
    if level == 0 {
        return Ok(vec![in alloc; wire]?);
    }
    let (first, second) = draft.fork(wire)?;
    let even = grow(alloc, draft, first, level - 1)?;
    let odd = grow(alloc, draft, second, level - 1)?;
    interleave(alloc, &even, &odd)
}

/// The wires of `even` and `odd` by turns, so that those of `even` have the even places.
///
/// # Errors
/// `AllocError` if the list gets no memory.
fn interleave(alloc: Global, even: &[u32], odd: &[u32]) -> Result<Vec<u32>, AllocError>
    requires { length even.now ≡ length odd.now }
    ensures { IfOk result (λ row. row.items ≡ net.interleave even.now odd.now) }
{
    let mut row = Vec::with_capacity(alloc, 2 * even.len())?;
    for (a, b) in even.iter().zip(odd) {
        row.push(*a)?;
        row.push(*b)?;
    }
    Ok(row)
}
