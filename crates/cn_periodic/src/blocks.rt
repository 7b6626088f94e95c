//! The block.

ghost use Rattle.std.specs.Prelude.{◌≡◌, ℕ, ◌+◌, ◌≤◌, IfOk};
ghost use Rattle.cn_spec.specs.Networks.{IsRow, a_cochain, b_cochain};
ghost use Rattle.cn_tables.specs.Plan.{AllLoose};
ghost use Rattle.cn_periodic.specs.Order.{block_made};
ghost use Rattle.cn_periodic.specs.Parts.{BuildsBlock};
ghost use Rattle.cn_periodic.specs.Sizes.{block_balancers};

use cn_spec::limits::MOST_BALANCERS;
use cn_wiring::Draft;
use std::alloc::{AllocError, Global};

/// Adds the block over a list of wires to a draft, and gives its outputs. If chains of one level have the step property
/// in the flows of the wires, those of the level below have it in the flows of the outputs (Aspnes, Herlihy, Shavit
/// 1994, section 4).
///
/// The list's length is a power of two from 2 upward, and its wires are loose and all different. A block over `n` wires
/// has `log2 n` layers of `n / 2` balancers, and the draft has at most [`MOST_BALANCERS`] balancers afterwards.
/// Balancers are numbered in the order in which they are made: the block over the A-cochain, that over the B-cochain,
/// and the last layer.
///
/// # Errors
/// `AllocError` if a list gets no memory. The draft may have some of the balancers then, and should be dropped.
pub fn block(alloc: Global, draft: &mut Draft, wires: &[u32]) -> Result<Vec<u32>, AllocError>
    requires row { (level : ℕ) × (1 ≤ level) × IsRow level wires.now
        × (draft.old.balancers + block_balancers level ≤ MOST_BALANCERS) }
    requires loose { AllLoose draft.old wires.now }
    ensures built { IfOk result (λ y. (level : ℕ) → IsRow level wires.now
        → BuildsBlock draft.old draft.new wires.now y.items level) }
    ensures order { IfOk result (λ y. (level : ℕ) → IsRow level wires.now
        → block_made level draft.old wires.now ≡ (draft.new, y.items)) }
{
    let a = a_cochain(alloc, wires)?;
    let b = b_cochain(alloc, wires)?;
    if wires.len() == 2 {
        return draft.join_all(&a, &b);
    }
    let z = block(alloc, draft, &a)?;
    let z2 = block(alloc, draft, &b)?;
    draft.join_all(&z, &z2)
}

/// The A-cochain: the wires at places 0, 3, 4, 7 and so on, whose two low bits are equal.
///
/// # Errors
/// `AllocError` if the list gets no memory.
fn a_cochain(alloc: Global, wires: &[u32]) -> Result<Vec<u32>, AllocError>
    ensures { IfOk result (λ part. part.items ≡ a_cochain wires.now) }
{
    (0..wires.len() / 2)
        .map(|j| wires[2 * j + j % 2])
        .collect(alloc)
}

/// The B-cochain: the wires at places 1, 2, 5, 6 and so on, whose two low bits differ.
///
/// # Errors
/// `AllocError` if the list gets no memory.
fn b_cochain(alloc: Global, wires: &[u32]) -> Result<Vec<u32>, AllocError>
    ensures { IfOk result (λ part. part.items ≡ b_cochain wires.now) }
{
    (0..wires.len() / 2)
        .map(|j| wires[2 * j + 1 - j % 2])
        .collect(alloc)
}
