//! Counting networks.

ghost use Rattle.std.specs.Prelude.{◌≡◌, ℕ, ◌+◌, ◌*◌, ◌<◌, ◌≤◌, ◌↔◌, List, length, slice_get, Some};
ghost use Rattle.cn_spec.specs.Sums.{Agree, sum_below};
ghost use Rattle.cn_tables.specs.Network.{Counts, IsNetwork};
ghost use Rattle.cn_tables.specs.Plan.{IsFlow, IsPath};
ghost use Rattle.cn_tables.specs.Table.{HasDepth, IsFullFlow, Stands, end_of, plan_of_table, sum_at};
ghost use Rattle.cn_tables.specs.declared.end.End.{End};
ghost use Rattle.cn_tables.specs.declared.end.End.TheVariants.{Exit};

use crate::end::End;
use crate::kind::Kind;
use crate::wiring::Wiring;
use std::marker::Model;

/// A counting network: every full flow gives its exits counts with the step property, and every path from an entry to
/// an exit passes the same number of balancers.
///
/// Aspnes, Herlihy, Shavit 1994, section 2.2.
#[derive(Drop)]
pub struct Counting {
    wiring: Wiring,
    kind: Kind,
    depth: u32,
}

impl Model for Counting {
    ghost use Rattle.cn_tables.specs.Network.{Network, IsNetwork};

    ghost Value = { Network };

    ghost view = { λ c. record { table = c.wiring; kind = c.kind; depth = c.depth } };

    ghost invariant = { λ c. IsNetwork (record { table = c.wiring; kind = c.kind; depth = c.depth }) };
}

impl Counting {
    /// The network of a wiring that counts, and in which every path passes `depth` balancers.
    pub fn of(wiring: Wiring, kind: Kind, depth: u32) -> Counting
        requires counts { Counts wiring }
        requires deep { HasDepth wiring depth }
        ensures { result ≡ record { table = wiring; kind = kind; depth = depth } }
    {
        // Asked, so that what a wiring keeps is known.
        let _ = wiring.entries();
        Counting {
            wiring,
            kind,
            depth,
        }
    }

    /// Which network it is.
    pub fn kind(&self) -> Kind
        ensures { result ≡ self.now.kind }
    {
        self.kind
    }

    /// How many balancers each path from an entry to an exit passes.
    pub fn depth(&self) -> u32
        ensures value { result ≡ self.now.depth }
        ensures network { IsNetwork self.now }
    {
        self.depth
    }

    /// How many entries there are. They are wires 0 to `entries - 1`.
    pub fn entries(&self) -> u32
        ensures value { result ≡ self.now.table.entries }
        ensures network { IsNetwork self.now }
    {
        self.wiring.entries()
    }

    /// How many exits there are.
    pub fn width(&self) -> u32
        ensures value { result ≡ self.now.table.width }
        ensures network { IsNetwork self.now }
    {
        self.wiring.width()
    }

    /// How many balancers there are.
    pub fn balancers(&self) -> u32
        ensures value { result ≡ self.now.table.balancers }
        ensures network { IsNetwork self.now }
    {
        self.wiring.balancers()
    }

    /// Where a wire ends. There are `entries + 2 * balancers` wires, and output `p` of balancer `b` is wire
    /// `entries + 2 * b + p`.
    pub fn end(&self, wire: u32) -> End
        requires { wire < self.now.table.entries + 2 * self.now.table.balancers }
        ensures value { slice_get self.now.table.ends wire ≡ Some result }
        ensures at { end_of self.now.table wire ≡ result }
        ensures there { Stands self.now.table result }
        ensures network { IsNetwork self.now }
    {
        self.wiring.end(wire)
    }

    /// The full flows of the table: one exists for all inputs, and only one. They are the flows of the table's draft. A
    /// full flow keeps the sum, and brings each balancer and each exit at most what entered. Each wire has a path from
    /// an entry.
    ///
    /// It does nothing: its contract is the law.
    pub fn full_flow_laws(&self)
        ensures exists { (x : ℕ → ℕ) → (f : ℕ → ℕ)
            × IsFullFlow self.now.table f × Agree self.now.table.entries f x }
        ensures unique { (f g : ℕ → ℕ) → IsFullFlow self.now.table f → IsFullFlow self.now.table g
            → Agree self.now.table.entries f g
            → Agree (self.now.table.entries + 2 * self.now.table.balancers) f g }
        ensures draft { (f : ℕ → ℕ)
            → IsFullFlow self.now.table f ↔ IsFlow (plan_of_table self.now.table) f }
        ensures sum { (f : ℕ → ℕ) → IsFullFlow self.now.table f
            → sum_below self.now.table.width (λ i. sum_at self.now.table (Exit i) f)
            ≡ sum_below self.now.table.entries f }
        ensures few { (f : ℕ → ℕ) → IsFullFlow self.now.table f
            → (end : End) → Stands self.now.table end
            → sum_at self.now.table end f ≤ sum_below self.now.table.entries f }
        ensures paths { (u : ℕ) → u < length self.now.table.ends
            → (us : List ℕ) × IsPath (plan_of_table self.now.table) u us }
    {
        self.wiring.full_flow_laws();
    }
}
