//! A slot that a thread filled.

ghost use Rattle.std.specs.Prelude.{◌≡◌};

use std::sync::{OnceLock, OnceToken};

/// A slot that a thread filled.
#[derive(Drop)]
pub struct Filled<'s> {
    pub(crate) slot: &'s OnceLock<u64>,
    pub(crate) token: OnceToken<'s, u64>,
    /// The name, which is the slot's index.
    pub name: u64,
    /// The client whose name it is.
    pub client: u64,
    ghost own: { token.of ≡ slot.now.id },
    ghost held: { token.value ≡ client },
}

impl<'s> Filled<'s> {
    /// What the slot holds: the client whose name it is. Each thread that may read the slots reads the same.
    pub fn read(&self) -> u64
        ensures { result ≡ self.now.client }
    {
        *self.slot.value(&self.token)
    }
}
