//! The shares of the exits, and the step property.

ghost use Rattle.std.specs.Prelude.{◌≡◌, ℕ, ◌<◌, ◌≤◌, ◌↔◌, IsTrue, length, slice_index};
ghost use Rattle.cn_spec.specs.Step.{IsStep, share};

use cn_spec::limits::{MOST_ARRIVALS, MOST_ENDS};

/// How many of `clients` tokens leave by `exit` of `width` once all have left: `(clients - exit) / width`, rounded up.
/// Exits count from 0.
///
/// `width` is at most [`MOST_ENDS`], `exit` below it, and `clients` at most [`MOST_ARRIVALS`]. Aspnes, Herlihy, Shavit
/// 1994, section 2.
pub fn expected(width: u32, clients: u64, exit: u32) -> u64
    requires width { width ≤ MOST_ENDS }
    requires exit { exit < width }
    requires clients { clients ≤ MOST_ARRIVALS }
    ensures { result ≡ share clients width exit }
{
    let width = u64::from(width);
    (clients + width - 1 - u64::from(exit)) / width
}

/// Whether each count is at least any later one.
fn never_rises(counts: &[u64]) -> bool
    ensures { IsTrue result ↔ ((i j : ℕ) → i < j → j < length counts.now
        → slice_index counts.now j ≤ slice_index counts.now i) }
{
    counts.is_sorted_by(|earlier, later| later <= earlier)
}

/// Whether the counts, from exit 0 up, have the step property: each is at least any later one, and at most one more. An
/// empty row has it, and so has a row of one count. It looks at each count at most a fixed number of times.
///
/// Aspnes, Herlihy, Shavit 1994, section 2.
pub fn is_step(counts: &[u64]) -> bool
    ensures { IsTrue result ↔ IsStep counts.now }
{
    match (counts.first(), counts.last()) {
        (Some(first), Some(last)) => never_rises(counts) && first - last <= 1,
        _ => true,
    }
}
