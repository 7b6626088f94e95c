//! Many clients are named by one call: those who follow one another by one entry together.

ghost use Rattle.std.specs.Prelude.{All, Some, false, length, map, slice_set, take, ◌<◌, ◌≡◌, ◌≤◌};
ghost use Rattle.std.specs.Prelude.{IfErr, IsTrue, OnErr, OnOk};
ghost use Rattle.cn_yard.specs.Lists.{tokens_in};
ghost use Rattle.cn_floor.specs.Steps.{StoodInState};
ghost use Rattle.cn_lists.specs.Listed.{HaveNames};
ghost use Rattle.cn_walk.specs.Walks.{WalksAll};
ghost use Rattle.cn_handles.specs.Many.{AreAllNamed, AreNamedAtOnce, IsLongestRun, by_entry, first_entry};
ghost use Rattle.cn_handles.specs.Refusals.{NotNamedMany};

use super::HeldLane;
use crate::handles::client::Client;
use crate::handles::refusal::Refusal;
use crate::places::floor_of;
use cn_floor::{Floor, Lane};

/// Whether each client comes by one of so many entries.
fn all_enter(clients: &[Client], entries: u64) -> bool
    ensures yes { IsTrue result → All (λ c. c.entry < entries) clients.now }
    ensures no { result ≡ false → ¬ All (λ c. c.entry < entries) clients.now }
{
    clients.iter().all(|client| client.entry < entries)
}

/// How many clients who come in by one entry go on together at most.
pub(super) const TOGETHER: usize = 64;

/// Copies the identities of the first clients of a list: of the longest run of those who come in by one entry, as far
/// as there is space. Returns how many.
fn copy_run(clients: &[Client], ids: &mut [u64]) -> usize
    requires some { (0 < length clients.now) × (0 < length ids.old) }
    ensures run { IsLongestRun clients.now (first_entry clients.now) (length ids.old) result }
    ensures ids { take result ids.new ≡ map (λ c. c.client) (take result clients.now) }
    ensures same { length ids.new ≡ length ids.old }
{
    let entry = clients[0].entry;
    let mut count = 0;
    while count < clients.len() && count < ids.len() && clients[count].entry == entry {
        ids[count] = clients[count].client;
        count += 1;
    }
    count
}

/// Writes the name of a client that is named by itself, if there is a place for it.
fn write_name(names: &mut [u64], name: u64)
    ensures { 0 < length names.old → names.new ≡ slice_set names.old 0 name }
{
    if !names.is_empty() {
        names[0] = name;
    }
}

/// Names clients who come in by one entry, of whom there is one at least: one by itself, and several together. If there
/// is a place for the name of each, it is written there.
pub(super) fn name_run(
    floor: &Floor<'static>,
    lane: &mut Lane,
    ids: &[u64],
    entry: u64,
    names: &mut [u64],
)
    requires own { lane.old.home ≡ floor.now }
    requires out { tokens_in lane.old.yard.lists ≡ 0 }
    requires some { 0 < length ids.now }
    requires entry { entry < floor.now.start.network.table.entries }
    requires quota { length ids.now ≤ lane.old.view.quota }
    requires room { length ids.now ≤ lane.old.room }
    ensures named { AreNamedAtOnce lane.old lane.new ids.now entry }
    ensures walked { WalksAll lane.old lane.new (by_entry entry ids.now) }
    ensures in_state { StoodInState lane.old.home.start lane.new.view }
    ensures names { length names.old ≡ length ids.now → HaveNames lane.old.view lane.new.view ids.now names.new }
{
    if ids.len() == 1 {
        let Ok(name) = floor.name(lane, ids[0], entry) else {
            unreachable!()
        };
        write_name(names, name);
    } else {
        let Ok(()) = cn_lists::name_all(floor, lane, ids, entry, names) else {
            unreachable!()
        };
    }
}

/// Names clients by a lane with nobody inside that has quota and room for all: those who follow one another by one
/// entry together.
fn name_all(floor: &Floor<'static>, lane: &mut Lane, clients: &[Client])
    requires own { lane.old.home ≡ floor.now }
    requires out { tokens_in lane.old.yard.lists ≡ 0 }
    requires entries { All (λ c. c.entry < floor.now.start.network.table.entries) clients.now }
    requires quota { length clients.now ≤ lane.old.view.quota }
    requires room { length clients.now ≤ lane.old.room }
    ensures { AreAllNamed lane.old lane.new clients.now }
{
    floor.names_are_once();
    let mut ids = [0; TOGETHER];
    let mut named = 0;
    while named < clients.len() {
        let rest = &clients[named..];
        let count = copy_run(rest, &mut ids);
        name_run(floor, lane, &ids[..count], rest[0].entry, &mut []);
        named += count;
    }
}

impl HeldLane {
    /// Names clients.
    ///
    /// # Errors
    /// The first that stands: `StillWalking`, `NoSuchEntry`, `QuotaSpent`, `Memory`. Then nothing has changed.
    pub(crate) fn name_many(&mut self, clients: &[Client]) -> Result<(), Refusal>
        ensures ok { OnOk result (AreAllNamed self.old self.new clients.now) }
        ensures err { OnErr result (self.new ≡ self.old) }
        ensures refused { IfErr result (NotNamedMany (Some self.old) clients.now (length clients.now)) }
    {
        let count = clients.len() as u64;
        if self.lane.inside() != 0 {
            return Err(Refusal::StillWalking);
        }
        let floor = floor_of(&self.floor);
        let entries = u64::from(floor.network().entries());
        if !all_enter(clients, entries) {
            return Err(Refusal::NoSuchEntry);
        }
        if count > self.lane.quota() {
            return Err(Refusal::QuotaSpent);
        }
        self.lane.lane_laws();
        if self.lane.grant_room() < count && self.lane.reserve_apart(count, 0).is_err() {
            return Err(Refusal::Memory);
        }
        name_all(floor, &mut self.lane, clients);
        Ok(())
    }
}
