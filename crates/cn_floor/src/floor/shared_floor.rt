//! A floor that threads share.

ghost use Rattle.std.specs.Prelude.{◌≡◌};

use super::Floor;

/// A floor that threads share. The closure of a thread that captures a `&Floor<'a>` promises nothing, so it captures a
/// type parameter, for which [`Floor`] stands.
pub trait SharedFloor {
    ghost use Rattle.cn_floor.specs.Lane.{FloorValue};

    ghost home: { Self → FloorValue };

    /// The floor itself.
    fn floor(&self) -> &Floor<'_>
        ensures { result.now ≡ Self.home self.now };
}

impl<'a> SharedFloor for Floor<'a> {
    ghost home = { λ floor. floor };

    fn floor(&self) -> &Floor<'_> {
        self
    }
}
