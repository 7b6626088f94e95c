//! Clients as C lists them.

/// A client that is to come in by an entry.
#[repr(C)]
#[derive(Clone, Copy)]
pub struct Client {
    /// Who.
    pub client: u64,
    /// The entry.
    pub entry: u64,
}
