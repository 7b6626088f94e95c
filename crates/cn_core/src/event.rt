//! What a client may ask of a core.

/// One event of a core: one atomic step of the running network.
#[derive(Clone, Copy, Debug, PartialEq, Eq)]
pub enum Event {
    /// The client comes in by an entry.
    Enter { client: u64, entry: u64 },
    /// The client takes its next step.
    Step { client: u64 },
}
