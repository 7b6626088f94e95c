//! The ends of wires.

/// Where a wire ends.
#[derive(Clone, Copy, Debug, PartialEq, Eq)]
pub enum End {
    /// It is an input of the balancer with this number.
    Balancer(u32),
    /// It is the exit with this number.
    Exit(u32),
}
