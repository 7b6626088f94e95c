//! The merger.

ghost use Rattle.std.specs.Prelude.{◌≡◌, ℕ, ◌+◌, ◌*◌, ◌^◌, ◌≤◌, ◌++◌, IfOk};
ghost use Rattle.cn_spec.specs.Networks.{IsRow, evens, odds};
ghost use Rattle.cn_tables.specs.Plan.{AllLoose};
ghost use Rattle.cn_bitonic.specs.Order.{merger_made};
ghost use Rattle.cn_bitonic.specs.Parts.{BuildsMerger};

use cn_spec::limits::MOST_BALANCERS;
use cn_wiring::Draft;
use std::alloc::{AllocError, Global};

/// Adds the merger of two lists of wires to a draft, and gives its outputs. If the flows of both lists have the step
/// property, so have the flows of the outputs (Aspnes, Herlihy, Shavit 1994, section 3).
///
/// The lists have one length, which is a power of two and may be 1, and their wires are loose and all different. A
/// merger of two lists of length `k` has `log2 k + 1` layers of `k` balancers, and the draft has at most
/// [`MOST_BALANCERS`] balancers afterwards. Balancers are numbered in the order in which they are made: the merger of
/// the even wires of `x` and the odd ones of `x2`, that of the other wires, and the last layer.
///
/// # Errors
/// `AllocError` if a list gets no memory. The draft may have some of the balancers then, and should be dropped.
pub fn merger(
    alloc: Global,
    draft: &mut Draft,
    x: &[u32],
    x2: &[u32],
) -> Result<Vec<u32>, AllocError>
    requires rows { (level : ℕ) × IsRow level x.now × IsRow level x2.now
        × (draft.old.balancers + (level + 1) * 2 ^ level ≤ MOST_BALANCERS) }
    requires loose { AllLoose draft.old (x.now ++ x2.now) }
    ensures built { IfOk result (λ y. (level : ℕ) → IsRow level x.now
        → BuildsMerger draft.old draft.new x.now x2.now y.items level) }
    ensures order { IfOk result (λ y. (level : ℕ) → IsRow level x.now
        → merger_made level draft.old x.now x2.now ≡ (draft.new, y.items)) }
{
    if x.len() == 1 {
        return draft.join_all(x, x2);
    }
    let even = evens(alloc, x)?;
    let odd2 = odds(alloc, x2)?;
    let z = merger(alloc, draft, &even, &odd2)?;
    let odd = odds(alloc, x)?;
    let even2 = evens(alloc, x2)?;
    let z2 = merger(alloc, draft, &odd, &even2)?;
    draft.join_all(&z, &z2)
}

/// The even subsequence: the wires at places 0, 2, 4 and so on, one for each pair.
///
/// # Errors
/// `AllocError` if the list gets no memory.
fn evens(alloc: Global, wires: &[u32]) -> Result<Vec<u32>, AllocError>
    ensures { IfOk result (λ part. part.items ≡ evens wires.now) }
{
    (0..wires.len() / 2).map(|j| wires[2 * j]).collect(alloc)
}

/// The odd subsequence: the wires at places 1, 3, 5 and so on.
///
/// # Errors
/// `AllocError` if the list gets no memory.
fn odds(alloc: Global, wires: &[u32]) -> Result<Vec<u32>, AllocError>
    ensures { IfOk result (λ part. part.items ≡ odds wires.now) }
{
    (0..wires.len() / 2)
        .map(|j| wires[2 * j + 1])
        .collect(alloc)
}
