//! Where a client is.

/// Where a client of an epoch is, as contracts see it. No value of it is made.
#[derive(Clone, Copy, Debug, PartialEq, Eq)]
pub enum Position {
    /// Its token stands on the wire with this number.
    On(u32),
    /// It holds this name.
    Holds(u64),
}
