//! The table of wire ends of a network.

ghost use Rattle.std.specs.Prelude.{◌≡◌, ℕ, ◌+◌, ◌*◌, ◌<◌, ◌≤◌, ◌↔◌, List, length, slice_get, Some, Err, IfErr, IfOk};
ghost use Rattle.cn_tables.specs.declared.end.End.TheVariants.{Exit};
ghost use Rattle.cn_spec.specs.Sums.{Agree, sum_below};
ghost use Rattle.cn_tables.specs.Faults.{IsFault};
ghost use Rattle.cn_tables.specs.Plan.{IsFlow, IsPath};
ghost use Rattle.cn_tables.specs.Table.{IsFullFlow, IsWellFormed, Stands, end_of, plan_of_table, sum_at, table_with};
ghost use Rattle.cn_tables.specs.declared.end.End.{End};

use crate::end::End;
use crate::fault::{WiringFault, check_ends};
use std::alloc::Global;
use std::marker::Model;

/// A well-formed table of wire ends: a network of balancers, which a draft is finished to (cn_wiring), or read from a
/// table by [`Wiring::from_ends`].
#[derive(Drop)]
pub struct Wiring {
    entries: u32,
    width: u32,
    balancers: u32,
    ends: Vec<End>,
}

impl Model for Wiring {
    ghost use Rattle.cn_tables.specs.Table.{Table, IsWellFormed};

    ghost Value = { Table };

    ghost use Rattle.cn_tables.specs.InsideWiring.{table_of};

    ghost view = { table_of };

    ghost invariant = { λ w. IsWellFormed (table_of w) };
}

impl Wiring {
    /// The wiring in which wire `u` ends at `ends[u]`. There are `entries + 2 * balancers` wires, and output `p` of
    /// balancer `b` is wire `entries + 2 * b + p`.
    ///
    /// # Errors
    /// The first kind of fault that stands, in the order of [`WiringFault`], with the least number, and the list.
    /// `Memory` is given only if no fault of the first three kinds stands.
    pub fn from_ends(
        alloc: Global,
        entries: u32,
        width: u32,
        balancers: u32,
        ends: Vec<End>,
    ) -> Result<Wiring, (WiringFault, Vec<End>)>
        ensures table { IfOk result (λ t. t ≡ table_with entries width balancers ends.items) }
        ensures formed { IfOk result IsWellFormed }
        ensures fault { let table = table_with entries width balancers ends.items in
            IfErr result (λ e. IsFault table e.0) }
        ensures accepts { IsWellFormed (table_with entries width balancers ends.items)
            → IfErr result (λ e. e.0 ≡ WiringFault.Memory) }
        ensures handed_back { IfErr result (λ e. e.1 ≡ ends) }
    {
        match check_ends(alloc, entries, width, balancers, &ends) {
            Ok(()) => Ok(Wiring::of_parts(entries, width, balancers, ends)),
            Err(fault) => Err((fault, ends)),
        }
    }

    /// The wiring of a well-formed table.
    pub fn of_parts(entries: u32, width: u32, balancers: u32, ends: Vec<End>) -> Wiring
        requires { IsWellFormed (table_with entries width balancers ends.items) }
        ensures { result ≡ table_with entries width balancers ends.items }
    {
        Wiring {
            entries,
            width,
            balancers,
            ends,
        }
    }

    /// How many entries there are. They are wires 0 to `entries - 1`.
    pub fn entries(&self) -> u32
        ensures value { result ≡ self.now.entries }
        ensures formed { IsWellFormed self.now }
    {
        self.entries
    }

    /// How many exits there are.
    pub fn width(&self) -> u32
        ensures value { result ≡ self.now.width }
        ensures formed { IsWellFormed self.now }
    {
        self.width
    }

    /// How many balancers there are.
    pub fn balancers(&self) -> u32
        ensures value { result ≡ self.now.balancers }
        ensures formed { IsWellFormed self.now }
    {
        self.balancers
    }

    /// Where a wire ends. There are `entries + 2 * balancers` wires, and output `p` of balancer `b` is wire
    /// `entries + 2 * b + p`.
    pub fn end(&self, wire: u32) -> End
        requires { wire < self.now.entries + 2 * self.now.balancers }
        ensures value { slice_get self.now.ends wire ≡ Some result }
        ensures at { end_of self.now wire ≡ result }
        ensures there { Stands self.now result }
        ensures formed { IsWellFormed self.now }
    {
        self.ends[wire as usize]
    }

    /// The full flows of the table: one exists for all inputs, and only one. They are the flows of the table's draft. A
    /// full flow keeps the sum, and brings each balancer and each exit at most what entered. Each wire has a path from
    /// an entry.
    ///
    /// It does nothing: its contract is the law.
    pub fn full_flow_laws(&self)
        ensures exists { (x : ℕ → ℕ)
            → (f : ℕ → ℕ) × IsFullFlow self.now f × Agree self.now.entries f x }
        ensures unique { (f g : ℕ → ℕ) → IsFullFlow self.now f → IsFullFlow self.now g
            → Agree self.now.entries f g → Agree (self.now.entries + 2 * self.now.balancers) f g }
        ensures draft { (f : ℕ → ℕ) → IsFullFlow self.now f ↔ IsFlow (plan_of_table self.now) f }
        ensures sum { (f : ℕ → ℕ) → IsFullFlow self.now f
            → sum_below self.now.width (λ i. sum_at self.now (Exit i) f) ≡ sum_below self.now.entries f }
        ensures few { (f : ℕ → ℕ) → IsFullFlow self.now f → (end : End) → Stands self.now end
            → sum_at self.now end f ≤ sum_below self.now.entries f }
        ensures paths { (u : ℕ) → u < length self.now.ends
            → (us : List ℕ) × IsPath (plan_of_table self.now) u us }
    {
        // Read, so that what a wiring keeps is known.
        let _ = &self.entries;
    }
}
