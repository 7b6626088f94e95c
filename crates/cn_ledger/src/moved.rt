//! Where a step of a token leads.

/// Where a step led.
#[derive(Clone, Copy, Debug, PartialEq, Eq)]
pub enum Moved {
    /// The token passed a balancer, as passage `number` since its count was 0, and stands on `wire`.
    On {
        balancer: u32,
        number: u64,
        wire: u32,
    },
    /// The token left by an exit, as visit `visit` since its count was 0, and the client holds `name`, a name of its
    /// epoch.
    Out {
        exit: u32,
        visit: u64,
        name: u64,
    },
}
