//! The steps of a lane, one at a time.

ghost use Rattle.std.specs.Prelude.{◌≡◌, ◌<◌, Some, length, IfErr, IfOk, OnErr, OnOk};
ghost use Rattle.cn_yard.specs.Lists.{IsLowest, on};
ghost use Rattle.cn_handles.specs.Moves.{IsEntered, IsStepped};
ghost use Rattle.cn_handles.specs.Refusals.{NoLowestWire, NobodyOn, NotEntered};
ghost use Rattle.cn_handles.specs.Sweepings.{IsSwept};

use super::HeldLane;
use crate::handles::moved::{Moved, Swept, moved_of, swept_of};
use crate::handles::refusal::Refusal;
use crate::places::floor_of;

impl HeldLane {
    /// Lets a client in by an entry.
    ///
    /// # Errors
    /// The first that stands: `NoSuchEntry`, `QuotaSpent`, `Memory`. Then nothing has changed.
    pub fn enter(&mut self, client: u64, entry: u64) -> Result<(), Refusal>
        ensures ok { OnOk result (IsEntered self.old self.new client entry) }
        ensures err { OnErr result (self.new ≡ self.old) }
        ensures refused { IfErr result (NotEntered (Some self.old) entry) }
    {
        let _token = floor_of(&self.floor).enter(&mut self.lane, client, entry)?;
        Ok(())
    }

    /// The wire with this number, on which a client of the lane stands.
    ///
    /// # Errors
    /// `NobodyThere`.
    fn wire_of_some(&self, wire: u64) -> Result<u32, Refusal>
        ensures ok { IfOk result (λ w. (w ≡ wire) × (0 < length (on self.now.yard.lists wire))) }
        ensures refused { IfErr result (NobodyOn (Some self.now) wire) }
    {
        self.lane.lane_laws();
        let network = floor_of(&self.floor).network();
        let wires = u64::from(network.entries()) + 2 * u64::from(network.balancers());
        if wire < wires && self.lane.count(wire as u32) > 0 {
            Ok(wire as u32)
        } else {
            Err(Refusal::NobodyThere)
        }
    }

    /// Lets the first client on a wire go by its end.
    ///
    /// # Errors
    /// `NobodyThere`. Then nothing has changed.
    pub fn step(&mut self, wire: u64) -> Result<Moved, Refusal>
        ensures ok { IfOk result (λ moved. IsStepped self.old self.new wire moved) }
        ensures err { OnErr result (self.new ≡ self.old) }
        ensures refused { IfErr result (NobodyOn (Some self.old) wire) }
    {
        let wire = self.wire_of_some(wire)?;
        self.lane.lane_laws();
        match self.lane.first(wire) {
            Some(token) => {
                let client = self.lane.client_of(token);
                let moved = floor_of(&self.floor).step(&mut self.lane, token);
                Ok(moved_of(client, moved))
            }
            None => unreachable!(),
        }
    }

    /// Lets all clients on a wire go by its end, by one step.
    ///
    /// # Errors
    /// `NobodyThere`. Then nothing has changed.
    pub fn sweep(&mut self, wire: u64) -> Result<Swept, Refusal>
        ensures ok { IfOk result (λ swept. IsSwept self.old self.new wire swept) }
        ensures err { OnErr result (self.new ≡ self.old) }
        ensures refused { IfErr result (NobodyOn (Some self.old) wire) }
    {
        let wire = self.wire_of_some(wire)?;
        Ok(swept_of(floor_of(&self.floor).sweep(&mut self.lane, wire)))
    }

    /// The least wire on which a client of the lane stands.
    ///
    /// # Errors
    /// `NobodyThere` if none does.
    pub fn lowest(&self) -> Result<u64, Refusal>
        ensures ok { IfOk result (IsLowest self.now.yard.lists) }
        ensures refused { IfErr result (NoLowestWire (Some self.now)) }
    {
        match self.lane.lowest() {
            Some(wire) => Ok(u64::from(wire)),
            None => Err(Refusal::NobodyThere),
        }
    }
}
