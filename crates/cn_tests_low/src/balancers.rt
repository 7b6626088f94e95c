//! The balancer.

use cn_balancer::{Balancer, Pass, departures, output_of};
use cn_spec::limits::MOST_ARRIVALS;

/// A token comes by an input, if it may.
fn arrive(balancer: &mut Balancer, input: u32) {
    if input < 2 && !balancer.is_full() {
        balancer.arrive(input);
    }
}

/// A token passes, if one waits.
fn pass(balancer: &mut Balancer) -> Option<Pass> {
    if 0 < balancer.waiting() {
        Some(balancer.pass())
    } else {
        None
    }
}

/// How many tokens came by each input, left on each output, and wait.
type Traffic = ([u64; 2], [u64; 2], u64);

fn traffic(balancer: &Balancer) -> Traffic {
    (
        [balancer.arrived(0), balancer.arrived(1)],
        [balancer.departed(0), balancer.departed(1)],
        balancer.waiting(),
    )
}

/// Five tokens come, and three pass.
fn five_tokens() -> (Traffic, [Option<Pass>; 3], Traffic) {
    let mut balancer = Balancer::new();
    for input in [0, 1, 1, 1, 0] {
        arrive(&mut balancer, input);
    }
    let before = traffic(&balancer);
    let first = pass(&mut balancer);
    let second = pass(&mut balancer);
    let third = pass(&mut balancer);
    (before, [first, second, third], traffic(&balancer))
}

#[test]
fn outputs_alternate(rt: HostRuntime) {
    let passes = [(0, 0), (1, 1), (2, 0)].map(|(number, output)| Some(Pass { number, output }));
    assert_eq!(rt;
        five_tokens(),
        (([2, 3], [0, 0], 5), passes, ([2, 3], [2, 1], 2))
    );
}

/// Both departures of so many tokens, if so many can come.
fn halves(count: u64) -> Option<(u64, u64)> {
    if count <= MOST_ARRIVALS {
        Some((departures(count, 0), departures(count, 1)))
    } else {
        None
    }
}

const HALVES: [(u64, (u64, u64)); 5] = [
    (0, (0, 0)),
    (1, (1, 0)),
    (2, (1, 1)),
    (7, (4, 3)),
    (MOST_ARRIVALS, (2_147_483_648, 2_147_483_648)),
];

/// The first number of tokens that does not depart so.
fn wrong_halves() -> Option<u64> {
    for (count, wanted) in &HALVES {
        if halves(*count) != Some(*wanted) {
            return Some(*count);
        }
    }
    None
}

#[test]
fn departures_halve(rt: HostRuntime) {
    let outputs = (output_of(0), output_of(u64::MAX));
    assert_eq!(rt; (wrong_halves(), outputs), (None, (0, 1)));
}
