//! The clients of a list, who all come in by one entry, are named by one call, and get their names in the order of the
//! list.

ghost use Rattle.std.specs.Prelude.{Some, length, ◌<◌, ◌≡◌, ◌≤◌};
ghost use Rattle.std.specs.Prelude.{IfErr, OnErr, OnOk};
ghost use Rattle.cn_yard.specs.Lists.{tokens_in};
ghost use Rattle.cn_handles.specs.Many.{AreListed};
ghost use Rattle.cn_handles.specs.Refusals.{NotNamedList};

use super::HeldLane;
use super::by_entry::{TOGETHER, name_run};
use crate::handles::refusal::Refusal;
use crate::places::floor_of;
use cn_floor::{Floor, Lane};

/// Names clients by a lane with nobody inside that has quota and room for all: as many together as may go on so. Writes
/// their names.
fn name_list(
    floor: &Floor<'static>,
    lane: &mut Lane,
    clients: &[u64],
    entry: u64,
    names: &mut [u64],
)
    requires own { lane.old.home ≡ floor.now }
    requires out { tokens_in lane.old.yard.lists ≡ 0 }
    requires entry { entry < floor.now.start.network.table.entries }
    requires quota { length clients.now ≤ lane.old.view.quota }
    requires room { length clients.now ≤ lane.old.room }
    requires space { length names.old ≡ length clients.now }
    ensures { AreListed lane.old lane.new clients.now entry names.new }
{
    floor.names_are_once();
    let mut named = 0;
    while named < clients.len() {
        let count = TOGETHER.min(clients.len() - named);
        let run = &clients[named..named + count];
        name_run(floor, lane, run, entry, &mut names[named..named + count]);
        named += count;
    }
}

impl HeldLane {
    /// Names clients who come in by one entry, and writes their names in their order.
    ///
    /// # Errors
    /// The first that stands: `Size`, `StillWalking`, `NoSuchEntry`, `QuotaSpent`, `Memory`. Then nothing has changed.
    pub(crate) fn name_list(
        &mut self,
        clients: &[u64],
        entry: u64,
        names: &mut [u64],
    ) -> Result<(), Refusal>
        ensures ok { OnOk result (AreListed self.old self.new clients.now entry names.new) }
        ensures err { OnErr result ((self.new ≡ self.old) × (names.new ≡ names.old)) }
        ensures refused { IfErr result
            (NotNamedList (Some self.old) (length clients.now) entry (length names.old)) }
    {
        let count = clients.len() as u64;
        if clients.len() != names.len() {
            return Err(Refusal::Size);
        }
        if self.lane.inside() != 0 {
            return Err(Refusal::StillWalking);
        }
        let floor = floor_of(&self.floor);
        if entry >= u64::from(floor.network().entries()) {
            return Err(Refusal::NoSuchEntry);
        }
        if count > self.lane.quota() {
            return Err(Refusal::QuotaSpent);
        }
        self.lane.lane_laws();
        if self.lane.grant_room() < count && self.lane.reserve_apart(count, 0).is_err() {
            return Err(Refusal::Memory);
        }
        name_list(floor, &mut self.lane, clients, entry, names);
        Ok(())
    }
}
