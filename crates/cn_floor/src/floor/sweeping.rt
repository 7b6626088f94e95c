//! All tokens of a wire, by one step.

ghost use Rattle.std.specs.Prelude.{◌≡◌, ℕ, ◌+◌, ◌<◌, ◌≤◌, ◌^◌, ◌++◌, length, vec_capacity};
ghost use Rattle.cn_spec.specs.Step as step;
ghost use Rattle.cn_yard.specs.Deals.{Frees};
ghost use Rattle.cn_yard.specs.Lists.{on};
ghost use Rattle.cn_floor.specs.Sweeps.{SweepsOn, grants_out};

use crate::floor::{Floor, Lane};
use crate::view::{Grant, Sweep};
use cn_balancer::output_of;
use cn_exit::name_of;
use cn_tables::End;
use cn_yard::Yard;
use std::marker::Brand;

/// Releases the tokens of a wire, first to last, with a grant for each: the exit's visits from `first` on, and their
/// names minus the number of clients that came before the floor began.
fn leave_all(
    yard: &mut Yard,
    grants: &mut Vec<Grant>,
    wire: u32,
    exit: u32,
    first: u64,
    width: u32,
    base: u64,
)
    requires wire { wire < length yard.old.lists }
    requires room { length grants.old.items + length (on yard.old.lists wire)
        ≤ vec_capacity grants.old }
    requires exit { exit < width }
    requires low { base ≤ step.name_of width exit first }
    requires high { step.name_of width exit (first + length (on yard.old.lists wire)) < 2 ^ 64 }
    ensures freed { Frees (on yard.old.lists wire) yard.old yard.new }
    ensures granted { grants.new.items
        ≡ grants.old.items ++ grants_out width base exit first (on yard.old.lists wire) }
    ensures capacity { vec_capacity grants.new ≡ vec_capacity grants.old }
{
    let mut visit = first;
    yard.yard_laws();
    while let Some(token) = yard.first(wire) {
        let client = yard.release(token);
        yard.yard_laws();
        grants.push_reserved(Grant {
            client,
            exit,
            visit,
            name: name_of(width, exit, visit) - base,
        });
        visit += 1;
    }
}

impl<'a> Floor<'a> {
    /// Lets all of the lane's tokens on a wire go by its end, first to last, in one atomic step: an add of as many as
    /// they are, of which there is at least one. They stand last on the balancer's outputs by turns, or leave with
    /// their names. It takes no memory, and refuses nothing.
    ///
    /// A sweep of c tokens is c events in turn: each has the number or visit after that of the token before it.
    pub fn sweep(&self, lane: &mut Lane, wire: u32) -> Sweep
        requires own { lane.old.home ≡ self.now }
        requires some { 0 < length (on lane.old.yard.lists wire) }
        ensures { (n : ℕ) × SweepsOn lane.old lane.new wire n result }
    {
        lane.lane_laws();
        let tokens = u64::from(lane.yard.count(wire));
        let network = self.network();
        let end = network.end(wire);
        let first = self
            .counters
            .sweep::<Brand>(&mut lane.post, wire, end, tokens);
        match end {
            End::Balancer(balancer) => {
                let out = network.entries() + 2 * balancer;
                lane.yard.deal(wire, output_of(first), out, out + 1);
                Sweep::On {
                    balancer,
                    first,
                    tokens,
                }
            }
            End::Exit(exit) => {
                let width = network.width();
                leave_all(
                    &mut lane.yard,
                    &mut lane.grants,
                    wire,
                    exit,
                    first,
                    width,
                    self.base,
                );
                Sweep::Out {
                    exit,
                    first,
                    tokens,
                }
            }
        }
    }
}
