//! For callers in Rattle: what can be wrong with a table of wire ends from outside, which [`crate::Wiring::from_ends`]
//! takes. The program makes its networks by drafts, which need no check.

ghost use Rattle.std.specs.Prelude.{◌≡◌, ℕ, ◌+◌, ◌*◌, ◌<◌, ◌↔◌, ◌^◌, IfErr, IfOk, IsTrue, length, slice_index, vec_len};
ghost use Rattle.cn_spec.specs.Sums.{total_where};
ghost use Rattle.cn_tables.specs.Faults.{EndStandsAt, EndsStand, IsFault, IsFirstFailure, IsWithin, LeadsOnAt, SizesFit};
ghost use Rattle.cn_tables.specs.Table.{IsWellFormed, is_end, table_with};
ghost use Rattle.cn_tables.specs.declared.end.End.TheVariants.{Balancer, Exit};

use crate::end::End;
use cn_spec::limits::{MOST_BALANCERS, MOST_ENDS};
use std::alloc::{AllocError, Global};

/// Why a list of ends is no wiring.
#[derive(Clone, Copy, Debug, PartialEq, Eq)]
pub enum WiringFault {
    /// There are not 1 to [`MOST_ENDS`] entries, 1 to [`MOST_ENDS`] exits and at most [`MOST_BALANCERS`] balancers, or
    /// the list has not an end for each of the `entries + 2 * balancers` wires.
    Length,
    /// This wire ends at a balancer or an exit that there is not.
    NoSuchEnd(u32),
    /// This wire is an output of a balancer and ends at one that is not later.
    Backward(u32),
    /// Not one or two wires end at this balancer.
    InDegree(u32),
    /// Not exactly one wire ends at this exit.
    ExitCount(u32),
    /// The counts of the wires that end at each balancer and exit got no memory.
    Memory,
}

/// The first kind of fault of a table, with the least number.
pub(crate) fn check_ends(
    alloc: Global,
    entries: u32,
    width: u32,
    balancers: u32,
    ends: &[End],
) -> Result<(), WiringFault>
    ensures formed { IfOk result (λ _. IsWellFormed (table_with entries width balancers ends.now)) }
    ensures fault { IfErr result (IsFault (table_with entries width balancers ends.now)) }
{
    if !sizes_fit(entries, width, balancers, ends) {
        return Err(WiringFault::Length);
    }
    if let Some(wire) = find_no_such_end(entries, width, balancers, ends) {
        return Err(WiringFault::NoSuchEnd(wire));
    }
    if let Some(wire) = find_backward(entries, width, balancers, ends) {
        return Err(WiringFault::Backward(wire));
    }
    let Ok((at_balancers, at_exits)) = arrivals(alloc, entries, width, balancers, ends) else {
        return Err(WiringFault::Memory);
    };
    if let Some(balancer) = find_outside(&at_balancers, 1, 2) {
        return Err(WiringFault::InDegree(balancer));
    }
    if let Some(exit) = find_outside(&at_exits, 1, 1) {
        return Err(WiringFault::ExitCount(exit));
    }
    Ok(())
}

/// Whether the numbers are within the limits, and the list has an end for each wire.
fn sizes_fit(entries: u32, width: u32, balancers: u32, ends: &[End]) -> bool
    ensures { IsTrue result ↔ SizesFit (table_with entries width balancers ends.now) }
{
    1 <= entries
        && entries <= MOST_ENDS
        && 1 <= width
        && width <= MOST_ENDS
        && balancers <= MOST_BALANCERS
        && ends.len() == (entries + 2 * balancers) as usize
}

/// The first wire that ends at no balancer and no exit of the table.
fn find_no_such_end(entries: u32, width: u32, balancers: u32, ends: &[End]) -> Option<u32>
    requires { length ends.now < 2 ^ 32 }
    ensures { let table = table_with entries width balancers ends.now in
        IsFirstFailure result (length ends.now) (EndStandsAt table) }
{
    for (u, end) in ends.iter().enumerate() {
        let stands = match end {
            End::Balancer(b) => *b < balancers,
            End::Exit(i) => *i < width,
        };
        if !stands {
            return Some(u as u32);
        }
    }
    None
}

/// The first wire that leads back.
fn find_backward(entries: u32, width: u32, balancers: u32, ends: &[End]) -> Option<u32>
    requires { EndsStand (table_with entries width balancers ends.now) }
    ensures { let table = table_with entries width balancers ends.now in
        IsFirstFailure result (length ends.now) (LeadsOnAt table) }
{
    for (u, end) in ends.iter().enumerate() {
        if let End::Balancer(b) = end {
            if u >= (entries + 2 * *b) as usize {
                return Some(u as u32);
            }
        }
    }
    None
}

/// How many wires end at each balancer and at each exit.
fn arrivals(
    alloc: Global,
    entries: u32,
    width: u32,
    balancers: u32,
    ends: &[End],
) -> Result<(Vec<u32>, Vec<u32>), AllocError>
    requires { EndsStand (table_with entries width balancers ends.now) }
    ensures at_balancers { IfOk result (λ r. (vec_len r.0 ≡ balancers) × ((b : ℕ) → b < balancers
        → slice_index r.0.items b ≡ total_where (is_end (Balancer b)) ends.now (λ _. 1))) }
    ensures at_exits { IfOk result (λ r. (vec_len r.1 ≡ width) × ((i : ℕ) → i < width
        → slice_index r.1.items i ≡ total_where (is_end (Exit i)) ends.now (λ _. 1))) }
{
    let mut at_balancers = vec![in alloc; 0u32; balancers as usize]?;
    let mut at_exits = vec![in alloc; 0u32; width as usize]?;
    for end in ends {
        match end {
            End::Balancer(b) => at_balancers[*b as usize] += 1,
            End::Exit(i) => at_exits[*i as usize] += 1,
        }
    }
    Ok((at_balancers, at_exits))
}

/// The first place at which the count is not from `least` to `most`.
fn find_outside(counts: &[u32], least: u32, most: u32) -> Option<u32>
    requires { length counts.now < 2 ^ 32 }
    ensures { IsFirstFailure result (length counts.now)
        (λ k. IsWithin least most (slice_index counts.now k)) }
{
    for (place, count) in counts.iter().enumerate() {
        if *count < least || most < *count {
            return Some(place as u32);
        }
    }
    None
}
