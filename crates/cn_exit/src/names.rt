//! The names that exits give out.

ghost use Rattle.std.specs.Prelude.{◌≡◌, ℕ, ◌<◌, ◌≤◌, ◌^◌};
ghost use Rattle.cn_spec.specs.Step as step;

/// Where a name is given out.
#[derive(Clone, Copy, Debug, PartialEq, Eq)]
pub struct Place {
    /// The exit, counted from 0.
    pub exit: u32,
    /// Which visit of the exit, counted from 0.
    pub visit: u64,
}

/// The name that `exit` of `width` gives out at this visit of it: `exit + width * visit`. Exits and visits count from
/// 0.
///
/// The name is below 2^64, as each is of a `width` of at most [`cn_spec::limits::MOST_ENDS`], an `exit` below it and a
/// `visit` of at most [`cn_spec::limits::MOST_ARRIVALS`]. Aspnes, Herlihy, Shavit 1994, section 2.
pub fn name_of(width: u32, exit: u32, visit: u64) -> u64
    requires fits { step.name_of width exit visit < 2 ^ 64 }
    ensures { result ≡ step.name_of width exit visit }
{
    u64::from(exit) + u64::from(width) * visit
}

/// The one exit of `width` and its one visit at which `name` is given out, as by [`name_of`].
///
/// `width` is at least 1; each number is a name. Aspnes, Herlihy, Shavit 1994, section 2.
pub fn exit_of(width: u32, name: u64) -> Place
    requires { 1 ≤ width }
    ensures exit { result.exit < width }
    ensures name { step.name_of width result.exit result.visit ≡ name }
    ensures only { (exit visit : ℕ) → exit < width → name ≡ step.name_of width exit visit
        → (result.exit ≡ exit) × (result.visit ≡ visit) }
{
    let width = u64::from(width);
    let (visit, exit) = (name / width, name % width);
    Place {
        exit: exit as u32,
        visit,
    }
}
