//! The widths of networks.

ghost use Rattle.std.specs.Prelude.{◌≡◌, ◌^◌, ◌≤◌, ◌↔◌, IsTrue, MatchOption};
ghost use Rattle.cn_tables.specs.Widths.{IsWidth, IsWidthOf};

use cn_spec::limits::MOST_LEVEL;

/// The width of networks of a level, which is from 1 to [`MOST_LEVEL`]: 2 to the power of the level. There are no other
/// widths.
pub fn width_of(level: u32) -> u32
    requires { (1 ≤ level) × (level ≤ MOST_LEVEL) }
    ensures value { result ≡ 2 ^ level }
    ensures built { IsWidthOf level result }
{
    2_u32.pow(level)
}

/// The level of networks of a width, which is its logarithm to base 2, or `None` if no network of this width is built.
pub fn level_of(width: u32) -> Option<u32>
    ensures { MatchOption result (¬ IsWidth width) (λ level. IsWidthOf level width) }
{
    if width < 2 {
        return None;
    }
    let level = width.ilog2();
    if level <= MOST_LEVEL && width == width_of(level) {
        Some(level)
    } else {
        None
    }
}

/// Whether networks of this width are built: a power of two from 2 to that of [`MOST_LEVEL`].
pub fn is_width(width: u32) -> bool
    ensures { IsTrue result ↔ IsWidth width }
{
    level_of(width).is_some()
}
