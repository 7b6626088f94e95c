//! A client and where it comes in.

/// A client that asks for a name, and the entry of the network by which it comes. No value of it is made here: it is
/// for callers with a list of clients.
#[derive(Clone, Copy, Debug, PartialEq, Eq)]
pub struct Client {
    /// The client's identity.
    pub id: u64,
    /// The number of its entry.
    pub entry: u64,
}
