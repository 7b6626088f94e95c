//! A finite map from clients to their standings.

ghost use Rattle.std.specs.Prelude.{◌≡◌, ℕ, ◌≤◌, ◌++◌, ◌∷◌, ◌↔◌, [], length, count_by, nat_eq, IsSome, IsTrue, IfOk, OnOk, OnErr};
ghost use Rattle.std.specs.List.{IsDistinct, list_any};
ghost use Rattle.std.specs.Map.{keys_of, values_of};
ghost use Rattle.cn_names.specs.Grants.{ListsByName, grants_in};
ghost use Rattle.cn_names.specs.Names.{IsWalking, is_walking, standing_of_client, with_standing};

use crate::standing::Standing;
use cn_yard::Token;
use indexmap::IndexMap;
use indexmap::map::Entry;
use std::alloc::{AllocError, Global};
use std::hash::RandomState;
use std::marker::Model;

/// Why a client is not admitted.
#[derive(Clone, Copy, Debug, PartialEq, Eq)]
pub enum NamesFault {
    /// The client has a standing.
    Held,
    /// A growth was refused.
    Memory,
}

/// Why the clients are not listed by name.
#[derive(Clone, Copy, Debug, PartialEq, Eq)]
pub enum ByNameFault {
    /// The token of some client is on its way.
    StillWalking,
    /// The list got no memory.
    Memory,
}

/// The clients that were admitted, each with its standing. A call that names a client makes one hash look-up.
#[derive(Drop)]
pub struct Names {
    map: IndexMap<u64, Standing, RandomState>,
}

impl Model for Names {
    ghost use Rattle.std.specs.Prelude.{List, ℕ, nat_eq};
    ghost use Rattle.std.specs.HashMap.{IsUnique};
    ghost use Rattle.cn_names.specs.declared.standing.Standing.{Standing};

    ghost Value = { List (ℕ × Standing) };

    ghost view = { λ n. n.map.entries };

    ghost invariant = { λ n. IsUnique nat_eq n.map };
}

impl Names {
    /// Nobody has a standing. The table hashes by `state`.
    ///
    /// # Errors
    /// `AllocError` if the table gets no memory. It asks for none before the first client.
    pub fn new(alloc: Global, state: RandomState) -> Result<Self, AllocError>
        ensures { IfOk result (λ names. names ≡ []) }
    {
        Ok(Names {
            map: IndexMap::with_hasher(alloc, state),
        })
    }

    /// How many clients have a standing: each stands there at most once.
    pub fn len(&self) -> usize
        ensures len { result ≡ length self.now }
        ensures once { (client : ℕ) → count_by (λ e. nat_eq client e.0) self.now ≤ 1 }
    {
        self.map.len()
    }

    /// Whether no client has a standing.
    pub fn is_empty(&self) -> bool
        ensures { IsTrue result ↔ (self.now ≡ []) }
    {
        self.map.is_empty()
    }

    /// The standing of a client, if it has one.
    pub fn standing(&self, client: u64) -> Option<Standing>
        ensures { result ≡ standing_of_client self.now client }
    {
        self.map.get(&client).copied()
    }

    /// A client comes in with its token.
    ///
    /// # Errors
    /// `Held` if the client has a standing, `Memory` if the map could not grow. Then nothing has changed.
    pub fn admit(&mut self, client: u64, token: Token) -> Result<(), NamesFault>
        ensures ok { OnOk result (self.new ≡ self.old ++ (client, Standing.Walking token) ∷ []) }
        ensures held { (result ≡ Err NamesFault.Held) ↔ IsSome (standing_of_client self.old client) }
        ensures err { OnErr result (self.new ≡ self.old) }
    {
        match self.map.entry(client) {
            Ok(Entry::Vacant(entry)) => {
                entry.insert(Standing::Walking(token));
                Ok(())
            }
            Ok(Entry::Occupied(entry)) => {
                // Gives the map back, for the proof.
                entry.into_mut();
                Err(NamesFault::Held)
            }
            Err(_) => Err(NamesFault::Memory),
        }
    }

    /// A client whose token was on its way gets a name. It takes no memory.
    pub fn settle(&mut self, client: u64, name: u64)
        requires { IsWalking self.old client }
        ensures { self.new ≡ with_standing self.old client (Standing.Holds name) }
    {
        *self.map.get_mut(&client).unwrap() = Standing::Holds(name);
    }

    /// The clients by rising name; if two hold one name, by rising number.
    ///
    /// # Errors
    /// `StillWalking` if the token of some client is on its way, before any memory is asked for; else `Memory` if the
    /// list got none.
    pub fn by_name(&self) -> Result<Vec<u64>, ByNameFault>
        ensures listed { IfOk result (λ clients. ListsByName self.now clients.items) }
        ensures everyone { IfOk result (λ clients. length clients.items ≡ length self.now) }
        ensures walking { (result ≡ Err ByNameFault.StillWalking)
            ↔ ((client : ℕ) × IsWalking self.now client) }
        ensures settled { OnOk result ((client : ℕ) → ¬ IsWalking self.now client) }
    {
        if self.is_any_walking() {
            return Err(ByNameFault::StillWalking);
        }
        match self.clients_by_name() {
            Ok(clients) => Ok(clients),
            Err(AllocError) => Err(ByNameFault::Memory),
        }
    }

    /// Whether the token of some client is on its way.
    fn is_any_walking(&self) -> bool
        ensures value { result ≡ list_any is_walking (values_of self.now) }
        ensures unique { IsDistinct nat_eq (keys_of self.now) }
    {
        self.map
            .values()
            .any(|standing| matches!(standing, Standing::Walking(_)))
    }

    /// The clients that hold names, by rising name.
    fn clients_by_name(&self) -> Result<Vec<u64>, AllocError>
        ensures { IfOk result (λ clients. ListsByName self.now clients.items) }
    {
        let mut grants = self.grants()?;
        grants.sort_unstable();
        grants
            .iter()
            .map(|grant| grant.1)
            .collect(*self.map.allocator())
    }

    /// The name and the client of each client that holds a name.
    fn grants(&self) -> Result<Vec<(u64, u64)>, AllocError>
        ensures { IfOk result (λ grants. grants.items ≡ grants_in self.now) }
    {
        let mut grants = Vec::with_capacity(*self.map.allocator(), self.len())?;
        for (client, standing) in &self.map {
            if let Standing::Holds(name) = standing {
                grants.push_reserved((*name, *client));
            }
        }
        Ok(grants)
    }

    /// Takes away every client's standing, and keeps the memory. It takes the time of the clients that go, and not that
    /// of the whole table, as the map's own `clear` does.
    pub fn clear(&mut self)
        ensures { self.new ≡ [] }
    {
        self.map.truncate(0);
    }
}
