//! The clients of an epoch, where they are, and the names that they hold.

ghost use Rattle.std.specs.Prelude.{◌≡◌, ℕ, ◌<◌, ◌++◌, ◌∷◌, [], None, Some, length, IfOk, IfSome, OnOk, OnErr, count_by, option_map};
ghost use Rattle.std.specs.Map.{values_of};
ghost use Rattle.cn_spec.specs.declared.limits.TheConstants.{MOST_CLIENTS};
ghost use Rattle.cn_yard.specs.Lists.{empty};
ghost use Rattle.cn_names.specs.Names.{standing_of_client};
ghost use Rattle.cn_names.specs.Grants.{ListsByName};
ghost use Rattle.cn_core.specs.State.{is_inside, position_in};
ghost use Rattle.cn_core.specs.InsideClients.{IsFound, position_found, positions, with_position};

use cn_names::{Names, Standing};
use cn_yard::{Token, Yard};
use std::alloc::{AllocError, Global};
use std::hash::RandomState;
use std::marker::Model;

/// Where a client is.
#[derive(Clone, Copy, Debug)]
pub(crate) enum Found {
    /// Its token stands on a wire.
    Walking { token: Token, wire: u32 },
    /// It holds this name.
    Named(u64),
}

/// The clients of an epoch: their tokens stand in a yard, and a table has each client's token or name.
#[derive(Drop)]
pub(crate) struct Clients {
    yard: Yard,
    names: Names,
}

impl Model for Clients {
    ghost use Rattle.cn_core.specs.InsideClients.{Clients, IsPlaced};

    ghost Value = { Clients };

    ghost view = { λ c. record { yard = c.yard; names = c.names } };

    ghost invariant = { λ c. IsPlaced (record { yard = c.yard; names = c.names }) };
}

impl Clients {
    ghost use Rattle.cn_names.specs.declared.standing.Standing.TheVariants.{Walking};
    ghost use Rattle.cn_core.specs.declared.position.Position.TheVariants.{On, Holds};

    /// Nobody, over this many wires.
    pub(crate) fn new(alloc: Global, wires: u32, state: RandomState) -> Result<Self, AllocError>
        ensures { IfOk result (λ clients. clients ≡ record { yard = empty wires; names = [] }) }
    {
        Ok(Clients {
            yard: Yard::new(alloc, wires)?,
            names: Names::new(alloc, state)?,
        })
    }

    /// How many have entered.
    pub(crate) fn len(&self) -> usize
        ensures { result ≡ length (positions self.now) }
    {
        self.names.len()
    }

    /// How many are inside.
    pub(crate) fn inside(&self) -> u32
        ensures { result ≡ count_by is_inside (values_of (positions self.now)) }
    {
        self.yard.len()
    }

    /// Where a client is, if it has entered.
    pub(crate) fn find(&self, client: u64) -> Option<Found>
        ensures position { option_map position_found result
            ≡ position_in (positions self.now) client }
        ensures token { IfSome result (IsFound self.now client) }
    {
        match self.names.standing(client)? {
            Standing::Walking(token) => Some(Found::Walking {
                token,
                wire: self.yard.wire_of(token),
            }),
            Standing::Holds(name) => Some(Found::Named(name)),
        }
    }

    /// A client that has not entered comes in on a wire, on which its token stands last.
    pub(crate) fn add(&mut self, client: u64, wire: u32) -> Result<(), AllocError>
        requires new { position_in (positions self.old) client ≡ None }
        requires wire { wire < length self.old.yard.lists }
        requires few { length (positions self.old) < MOST_CLIENTS }
        ensures ok { OnOk result
            (positions self.new ≡ positions self.old ++ (client, On wire) ∷ []) }
        ensures err { OnErr result (positions self.new ≡ positions self.old) }
        ensures wires { length self.new.yard.lists ≡ length self.old.yard.lists }
    {
        let token = self.yard.admit(client, wire)?;
        if self.names.admit(client, token).is_err() {
            self.yard.release(token);
            return Err(AllocError);
        }
        Ok(())
    }

    /// A client's token goes to another wire, on which it stands last.
    pub(crate) fn walk(&mut self, token: Token, wire: u32)
        requires walking { (client : ℕ)
            × (standing_of_client self.old.names client ≡ Some (Walking token)) }
        requires wire { wire < length self.old.yard.lists }
        ensures walked { (client : ℕ) → standing_of_client self.old.names client ≡ Some (Walking token)
            → positions self.new ≡ with_position (positions self.old) client (On wire) }
        ensures wires { length self.new.yard.lists ≡ length self.old.yard.lists }
    {
        self.yard.move_to(token, wire);
    }

    /// A client leaves with a name, and its token is gone.
    pub(crate) fn settle(&mut self, client: u64, token: Token, name: u64)
        requires walking { standing_of_client self.old.names client ≡ Some (Walking token) }
        ensures settled { positions self.new
            ≡ with_position (positions self.old) client (Holds name) }
        ensures wires { length self.new.yard.lists ≡ length self.old.yard.lists }
    {
        self.yard.release(token);
        self.names.settle(client, name);
    }

    /// The clients by rising name. Nobody is inside.
    pub(crate) fn by_name(&self) -> Result<Vec<u64>, AllocError>
        requires { count_by is_inside (values_of (positions self.now)) ≡ 0 }
        ensures { IfOk result (λ clients. ListsByName self.now.names clients.items) }
    {
        match self.names.by_name() {
            Ok(clients) => Ok(clients),
            Err(_memory) => Err(AllocError),
        }
    }

    /// Forgets all clients. Nobody is inside.
    pub(crate) fn clear(&mut self)
        requires { count_by is_inside (values_of (positions self.old)) ≡ 0 }
        ensures nobody { positions self.new ≡ [] }
        ensures wires { length self.new.yard.lists ≡ length self.old.yard.lists }
    {
        self.names.clear();
    }
}
