//! All small lists of ends, against the rules of a wiring written plainly.

use crate::wirings::{Sizes, is_answered};
use cn_wiring::End::{self, Balancer, Exit};
use cn_wiring::WiringFault::{self, Backward, ExitCount, InDegree, Length, NoSuchEnd};
use std::alloc::{AllocError, Global};

/// How many wires end at an end.
fn arrivals(ends: &[End], end: End) -> usize {
    ends.iter().filter(|other| **other == end).count()
}

/// The first wire that ends nowhere.
fn ends_nowhere(sizes: Sizes, ends: &[End]) -> Option<u32> {
    let [_, width, balancers] = sizes;
    let wire = ends.iter().position(|end| match end {
        Balancer(balancer) => balancers <= *balancer,
        Exit(exit) => width <= *exit,
    })?;
    u32::try_from(wire).ok()
}

/// The first wire that leads back.
fn leads_back(sizes: Sizes, ends: &[End]) -> Option<u32> {
    let [entries, ..] = sizes;
    let (wire, _) = ends.iter().enumerate().find(|(wire, end)| match end {
        Balancer(balancer) => u64::from(entries) + 2 * u64::from(*balancer) <= *wire as u64,
        Exit(_) => false,
    })?;
    u32::try_from(wire).ok()
}

/// The first fault of a list, in the order in which faults are reported.
fn first_fault(sizes: Sizes, ends: &[End]) -> Option<WiringFault> {
    let [entries, width, balancers] = sizes;
    if ends.len() as u64 != u64::from(entries) + 2 * u64::from(balancers) {
        return Some(Length);
    }
    if let Some(wire) = ends_nowhere(sizes, ends) {
        return Some(NoSuchEnd(wire));
    }
    if let Some(wire) = leads_back(sizes, ends) {
        return Some(Backward(wire));
    }
    let unfed = (0..balancers).find(|b| !(1..=2).contains(&arrivals(ends, Balancer(*b))));
    if let Some(balancer) = unfed {
        return Some(InDegree(balancer));
    }
    let exit = (0..width).find(|i| arrivals(ends, Exit(*i)) != 1)?;
    Some(ExitCount(exit))
}

const CHOICES: [End; 6] = [
    Balancer(0),
    Balancer(1),
    Balancer(2),
    Exit(0),
    Exit(1),
    Exit(2),
];

/// The list of `wires` ends with this number: its digits to base 6 choose the ends.
fn list(alloc: Global, wires: u32, number: u64) -> Result<Vec<End>, AllocError> {
    let mut ends = Vec::new(alloc);
    let mut rest = number;
    for _ in 0..wires {
        ends.push(CHOICES[(rest % 6) as usize])?;
        rest /= 6;
    }
    Ok(ends)
}

/// Whether the list with a number is answered with its first fault.
fn is_list_answered(alloc: Global, sizes: Sizes, wires: u32, number: u64) -> bool {
    match list(alloc, wires, number) {
        Ok(ends) => is_answered(alloc, sizes, &ends, first_fault(sizes, &ends)),
        Err(_) => false,
    }
}

/// The first list, by its number, that is not answered with its first fault.
fn wrong_list(alloc: Global, sizes: Sizes, wires: u32) -> Option<u64> {
    for number in 0..6_u64.saturating_pow(wires) {
        if !is_list_answered(alloc, sizes, wires, number) {
            return Some(number);
        }
    }
    None
}

/// Entries, exits and balancers, and how many ends a list has: in the last row not as many as there are wires.
const SMALL: [(Sizes, u32); 9] = [
    ([2, 2, 1], 4),
    ([2, 1, 1], 4),
    ([4, 4, 0], 4),
    ([4, 3, 0], 4),
    ([1, 2, 1], 3),
    ([1, 3, 2], 5),
    ([1, 1, 2], 5),
    ([2, 2, 2], 6),
    ([2, 2, 2], 5),
];

/// The first sizes, and the first list of them by its number, that is not answered with its first fault.
fn first_wrong_list(alloc: Global) -> Option<(Sizes, u64)> {
    for (sizes, wires) in &SMALL {
        if let Some(number) = wrong_list(alloc, *sizes, *wires) {
            return Some((*sizes, number));
        }
    }
    None
}

#[test]
fn all_small_lists(rt: HostRuntime) {
    assert_eq!(rt; first_wrong_list(rt.alloc()), None);
}
