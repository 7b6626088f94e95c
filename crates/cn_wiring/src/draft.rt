//! Drafts of networks, to which balancers are added one by one.

ghost use Rattle.std.specs.Prelude.{◌≡◌, ℕ, ◌+◌, ◌*◌, ◌<◌, ◌≤◌, ◌↔◌, List, [], ◌∷◌, ◌++◌, map, IfOk, IfErr, OnErr, OnOk, IsTrue, length, None, is_none, slice_index, slice_index_or};
ghost use Rattle.std.specs.List.{range_with_len};
ghost use Rattle.cn_spec.specs.Networks.{layer};
ghost use Rattle.cn_spec.specs.Step.{IsStep, half};
ghost use Rattle.cn_spec.specs.Sums.{Agree, times, when};
ghost use Rattle.cn_wiring.specs.Made.{IsTableOf, with_layer};
ghost use Rattle.cn_tables.specs.Network.{IsNetwork, exit_flows};
ghost use Rattle.cn_tables.specs.Plan.{AllLoose, Builds, Each, HasLevel, IsFlow, IsPath, entries_alone, loose, next_wire, with_balancer};
ghost use Rattle.cn_tables.specs.Table.{HasDepth, IsFullFlow, IsWellFormed, balancer_of, sum_at};
ghost use Rattle.cn_tables.specs.declared.end.End.{End};
ghost use Rattle.cn_tables.specs.declared.end.End.TheVariants.{Balancer, Exit};

use cn_spec::limits::{MOST_BALANCERS, MOST_ENDS};
use cn_tables::{Counting, End, Kind, Wiring};
use std::alloc::{AllocError, Global};
use std::marker::Model;

/// A network that is being built. Each of its wires ends at a balancer, or is loose.
///
/// Wires 0 to `entries - 1` are the entries, and wire `entries + 2 * b + p` is output `p` of balancer `b`. Balancers
/// are numbered from 0 in the order in which they are made.
#[derive(Drop)]
pub struct Draft {
    alloc: Global,
    entries: u32,
    balancers: u32,
    ends: Vec<Option<u32>>,
}

impl Model for Draft {
    ghost use Rattle.cn_tables.specs.Plan.{Plan};

    ghost Value = { Plan };

    ghost use Rattle.cn_tables.specs.Plan.{IsOrderly};
    ghost use Rattle.cn_wiring.specs.InsideDraft.{plan_of};

    ghost view = { plan_of };

    ghost invariant = { λ d. IsOrderly (plan_of d) };
}

impl Draft {
    /// A draft of `entries` entries, all loose, and no balancer. There are 1 to [`MOST_ENDS`] entries.
    ///
    /// # Errors
    /// `AllocError` if the list of wires gets no memory.
    pub fn new(alloc: Global, entries: u32) -> Result<Draft, AllocError>
        requires some { 1 ≤ entries }
        requires limit { entries ≤ MOST_ENDS }
        ensures plan { IfOk result (λ d. d ≡ entries_alone entries) }
        ensures loose { IfOk result
            (λ d. (w : ℕ) → loose d w ≡ times w (range_with_len 0 entries)) }
        ensures level { IfOk result (λ d. Each (HasLevel d 0) (range_with_len 0 entries)) }
    {
        Ok(Draft {
            alloc,
            entries,
            balancers: 0,
            ends: vec![in alloc; None; entries as usize]?,
        })
    }

    /// How many entries there are. They are wires 0 to `entries - 1`.
    pub fn entries(&self) -> u32
        ensures { result ≡ self.now.entries }
    {
        self.entries
    }

    /// How many balancers have been made.
    pub fn balancers(&self) -> u32
        ensures value { result ≡ self.now.balancers }
        ensures limit { self.now.balancers ≤ MOST_BALANCERS }
    {
        self.balancers
    }

    /// A flow exists for all inputs and is the only one, and there is a path to each wire.
    ///
    /// It does nothing: its contract is the law.
    pub fn flow_laws(&self)
        ensures exists { (x : ℕ → ℕ)
            → (f : ℕ → ℕ) × IsFlow self.now f × Agree self.now.entries f x }
        ensures unique { (f g : ℕ → ℕ) → IsFlow self.now f → IsFlow self.now g
            → Agree self.now.entries f g → Agree (length self.now.ends) f g }
        ensures paths { (w : ℕ) → w < length self.now.ends
            → (us : List ℕ) × IsPath self.now w us }
    {
        // Read, so that what a draft keeps is known.
        let _ = &self.entries;
    }

    /// Makes room for so many more balancers: until they are made, the draft's list of wires grows no more. There are
    /// at most [`MOST_BALANCERS`] balancers with them. It only serves speed, so the contract says nothing of the room.
    ///
    /// # Errors
    /// `AllocError` if the list of wires gets no memory. The draft is as it was.
    pub fn reserve(&mut self, balancers: u32) -> Result<(), AllocError>
        requires { self.old.balancers + balancers ≤ MOST_BALANCERS }
        ensures { self.new ≡ self.old }
    {
        self.ends.reserve(2 * balancers as usize)
    }

    /// Whether the wire is one of the draft, and ends at no balancer yet.
    pub fn is_loose(&self, wire: u32) -> bool
        ensures { IsTrue result ↔ (loose self.now wire ≡ 1) }
    {
        matches!(self.ends.get(wire as usize), Some(None))
    }

    /// Makes the next balancer, over two different loose wires, and gives its outputs, which are loose. There are fewer
    /// than [`MOST_BALANCERS`] balancers before.
    ///
    /// # Errors
    /// `AllocError` if the list of wires gets no memory. The draft is as it was.
    pub fn join(&mut self, u: u32, v: u32) -> Result<(u32, u32), AllocError>
        requires room { self.old.balancers < MOST_BALANCERS }
        requires both { AllLoose self.old (u ∷ v ∷ []) }
        ensures wires { IfOk result (λ r. (r.0 ≡ next_wire self.old) × (r.1 ≡ r.0 + 1)) }
        ensures plan { OnOk result (self.new ≡ with_balancer self.old (u ∷ v ∷ [])) }
        ensures built { IfOk result
            (λ r. Builds self.old self.new (u ∷ v ∷ []) (r.0 ∷ r.1 ∷ []) 1 1) }
        ensures halves { IfOk result (λ r. (f : ℕ → ℕ) → IsFlow self.new f
            → (f r.0 ≡ half (f u + f v) 0) × (f r.1 ≡ half (f u + f v) 1)) }
        ensures flows { IfOk result (λ r. (f : ℕ → ℕ) → IsFlow self.old f
            → f r.0 ≡ half (f u + f v) 0 → f r.1 ≡ half (f u + f v) 1 → IsFlow self.new f) }
        ensures refused { OnErr result (self.new ≡ self.old) }
    {
        self.ends.reserve(2)?;
        let first = self.entries + 2 * self.balancers;
        self.ends[u as usize] = Some(self.balancers);
        self.ends[v as usize] = Some(self.balancers);
        self.ends.push(None)?;
        self.ends.push(None)?;
        self.balancers += 1;
        Ok((first, first + 1))
    }

    /// Makes the next balancer, over one loose wire, and gives its outputs, which are loose. There are fewer than
    /// [`MOST_BALANCERS`] balancers before.
    ///
    /// # Errors
    /// `AllocError` if the list of wires gets no memory. The draft is as it was.
    pub fn fork(&mut self, wire: u32) -> Result<(u32, u32), AllocError>
        requires room { self.old.balancers < MOST_BALANCERS }
        requires one { AllLoose self.old (wire ∷ []) }
        ensures wires { IfOk result (λ r. (r.0 ≡ next_wire self.old) × (r.1 ≡ r.0 + 1)) }
        ensures plan { OnOk result (self.new ≡ with_balancer self.old (wire ∷ [])) }
        ensures built { IfOk result
            (λ r. Builds self.old self.new (wire ∷ []) (r.0 ∷ r.1 ∷ []) 1 1) }
        ensures halves { IfOk result (λ r. (f : ℕ → ℕ) → IsFlow self.new f
            → (f r.0 ≡ half (f wire) 0) × (f r.1 ≡ half (f wire) 1)) }
        ensures flows { IfOk result (λ r. (f : ℕ → ℕ) → IsFlow self.old f
            → f r.0 ≡ half (f wire) 0 → f r.1 ≡ half (f wire) 1 → IsFlow self.new f) }
        ensures refused { OnErr result (self.new ≡ self.old) }
    {
        self.ends.reserve(2)?;
        let first = self.entries + 2 * self.balancers;
        self.ends[wire as usize] = Some(self.balancers);
        self.ends.push(None)?;
        self.ends.push(None)?;
        self.balancers += 1;
        Ok((first, first + 1))
    }

    /// Joins the wires of two lists pairwise, and gives the outputs in order: the two of the first balancer, then those
    /// of the next. The lists have one length, and their wires are loose and all different. There are at most
    /// [`MOST_BALANCERS`] balancers afterwards.
    ///
    /// # Errors
    /// `AllocError` if a list gets no memory. The draft may have some of the balancers then, and should be dropped.
    pub fn join_all(&mut self, xs: &[u32], ys: &[u32]) -> Result<Vec<u32>, AllocError>
        requires same { length xs.now ≡ length ys.now }
        requires room { self.old.balancers + length xs.now ≤ MOST_BALANCERS }
        requires loose { AllLoose self.old (xs.now ++ ys.now) }
        ensures wires { IfOk result (λ outs.
            outs.items ≡ range_with_len (next_wire self.old) (2 * length xs.now)) }
        ensures plan { OnOk result (self.new ≡ with_layer self.old xs.now ys.now) }
        ensures built { IfOk result (λ outs.
            Builds self.old self.new (xs.now ++ ys.now) outs.items 1 (length xs.now)) }
        ensures flow { IfOk result (λ outs. (f : ℕ → ℕ) → IsFlow self.new f
            → map f outs.items ≡ layer (map f xs.now) (map f ys.now)) }
    {
        let mut outs = Vec::with_capacity(self.alloc, 2 * xs.len())?;
        for i in 0..xs.len() {
            let (first, second) = self.join(xs[i], ys[i])?;
            outs.push(first)?;
            outs.push(second)?;
        }
        Ok(outs)
    }

    /// The finished wiring, in which wire `exits[i]` ends at exit `i`. There are 1 to [`MOST_ENDS`] exits, and they
    /// name each loose wire once.
    ///
    /// # Errors
    /// `AllocError` if the list of ends gets no memory. The draft is handed back.
    pub fn finish(self, exits: &[u32]) -> Result<Wiring, (Draft, AllocError)>
        requires count { (1 ≤ length exits.now) × (length exits.now ≤ MOST_ENDS) }
        requires each { (w : ℕ) → times w exits.now ≡ loose self w }
        ensures table { IfOk result (λ t. IsTableOf t (self, exits.now)) }
        ensures formed { IfOk result IsWellFormed }
        ensures flow { IfOk result (λ t. (i : ℕ) (f : ℕ → ℕ) → i < length exits.now
            → sum_at t (Exit i) f ≡ f (slice_index exits.now i)) }
        ensures depth { IfOk result
            (λ t. (n : ℕ) → Each (HasLevel self n) exits.now → HasDepth t n) }
        ensures refused { IfErr result (λ e. e.0 ≡ self) }
    {
        let width = exits.len() as u32;
        match close(self.alloc, &self.ends, exits) {
            Ok(ends) => Ok(Wiring::of_parts(self.entries, width, self.balancers, ends)),
            Err(error) => Err((self, error)),
        }
    }

    /// The finished counting network, in which wire `exits[i]` ends at exit `i`, and every path from an entry to an
    /// exit passes `depth` balancers. There are 1 to [`MOST_ENDS`] exits, which name each loose wire once. In each flow
    /// of the draft their counts have the step property (Aspnes, Herlihy, Shavit 1994, section 2.2).
    ///
    /// # Errors
    /// `AllocError` if the list of ends gets no memory. The draft is handed back.
    pub fn finish_counting(
        self,
        exits: &[u32],
        kind: Kind,
        depth: u32,
    ) -> Result<Counting, (Draft, AllocError)>
        requires count { (1 ≤ length exits.now) × (length exits.now ≤ MOST_ENDS) }
        requires each { (w : ℕ) → times w exits.now ≡ loose self w }
        requires counts { (f : ℕ → ℕ) → IsFlow self f → IsStep (map f exits.now) }
        requires deep { Each (HasLevel self depth) exits.now }
        ensures table { IfOk result (λ n. IsTableOf n.table (self, exits.now)) }
        ensures named { IfOk result (λ n. (n.kind ≡ kind) × (n.depth ≡ depth)) }
        ensures counts { IfOk result IsNetwork }
        ensures draft { IfOk result (λ n. (f : ℕ → ℕ) → IsFullFlow n.table f → IsFlow self f) }
        ensures exits { IfOk result (λ n. (f : ℕ → ℕ) → exit_flows n.table f ≡ map f exits.now) }
        ensures refused { IfErr result (λ e. e.0 ≡ self) }
    {
        let wiring = self.finish(exits)?;
        Ok(Counting::of(wiring, kind, depth))
    }
}

/// The ends of the wires: wire exits[i] ends at exit i.
fn close(alloc: Global, ends: &[Option<u32>], exits: &[u32]) -> Result<Vec<End>, AllocError>
    requires count { length exits.now ≤ MOST_ENDS }
    requires loose { (w : ℕ)
        → times w exits.now ≤ when (is_none (slice_index_or ends.now w (Some 0))) 1 }
    ensures plan { IfOk result (λ v. map balancer_of v.items ≡ ends.now) }
    ensures exits { IfOk result (λ v. (i : ℕ) → i < length exits.now
        → slice_index_or v.items (slice_index exits.now i) (Balancer 0) ≡ Exit i) }
{
    let mut closed = Vec::with_capacity(alloc, ends.len())?;
    for end in ends {
        closed.push(end_at(*end))?;
    }
    for i in 0..exits.len() {
        closed[exits[i] as usize] = End::Exit(i as u32);
    }
    Ok(closed)
}

/// The end at a balancer, or at an exit that is not chosen yet.
fn end_at(balancer: Option<u32>) -> End
    ensures { balancer_of result ≡ balancer }
{
    balancer.map_or(End::Exit(0), End::Balancer)
}
