//! What may be asked of epochs.

/// One command: an event of the epoch that stands open, or its end.
#[derive(Clone, Copy, Debug, PartialEq, Eq)]
pub enum Command {
    /// The client comes in by an entry.
    Enter { client: u64, entry: u64 },
    /// The client takes its next step.
    Step { client: u64 },
    /// The epoch ends, and the next begins.
    Turn,
}
