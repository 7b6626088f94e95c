//! The standing of a client.

use cn_yard::Token;

/// The standing of a client that came in.
#[derive(Clone, Copy, Debug, PartialEq, Eq)]
pub enum Standing {
    /// Its token is on the way.
    Walking(Token),
    /// It holds this name.
    Holds(u64),
}
