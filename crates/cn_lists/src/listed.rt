//! The clients of a list, named by one call: all who stand on a wire pass its end together, and where they stand is in
//! locals.

ghost use Rattle.std.specs.Prelude.{◌≡◌, ◌≢◌, ℕ, ◌-◌, ◌/◌, ◌<◌, ◌≤◌, ◌↔◌, List, length, slice_index, vec_capacity, IsErrOf, OnErr, OnOk};
ghost use Rattle.cn_yard.specs.Deals.{every_second};
ghost use Rattle.cn_yard.specs.Lists.{tokens_in};
ghost use Rattle.cn_lists.specs.Listed.{AreNamed, AreNoted, HaveNames, HaveWalked, ListFrame, Stand, frame_of};

use crate::passing::{Party, walk_party};
use cn_exit::name_of;
use cn_floor::{Floor, Grant, Lane, LaneFault, Post, Walk};

/// Where those of a list's clients who stand on one wire stand in the list, first to last: at every `gap`-th place
/// from `first` on.
#[derive(Clone, Copy)]
struct Places {
    first: usize,
    gap: usize,
}

/// The clients of a list, who walk together, and the list of their names, with a place for each or for none.
#[derive(Drop)]
struct Together<'c> {
    clients: &'c [u64],
    names: &'c mut [u64],
}

impl<'c> Together<'c> {
    /// Writes the name of the client at a place there, if names are wanted.
    #[inline(always)]
    fn write(&mut self, place: usize, name: u64)
        ensures kept { (self.new.clients ≡ self.old.clients) × (self.new.names.ghost_name ≡ self.old.names.ghost_name)
            × (length self.new.names.now ≡ length self.old.names.now) }
        ensures here { place < length self.old.names.now → slice_index self.new.names.now place ≡ name }
        ensures others { (k : ℕ) → k ≢ place
            → slice_index self.new.names.now k ≡ slice_index self.old.names.now k }
    {
        if place < self.names.len() {
            self.names[place] = name;
        }
    }
}

/// The grants of a lane, and the list of clients who get more.
#[derive(Drop)]
struct Granting<'g, 'c> {
    grants: &'g mut Vec<Grant>,
    list: &'g mut Together<'c>,
}

/// They are granted their names, and the name of each is written at its own place.
impl<'g, 'c> Party<Granting<'g, 'c>> for Places {
    ghost Frame = { ListFrame };

    ghost kept = { frame_of };

    ghost room = { λ notes. vec_capacity notes.grants.now - length notes.grants.now.items };

    ghost clients_of = { λ notes. notes.list.now.clients.now };

    ghost Are = { Stand };

    ghost Noted = { λ before now gone notes. AreNoted before now gone
        notes.list.now.clients.now notes.grants.now.items notes.list.now.names.now };

    fn clients<'m>(self, notes: &'m Granting<'g, 'c>) -> &'m [u64] {
        notes.list.clients
    }

    fn halves(self, count: usize) -> (Self, Self)
        requires some { 2 ≤ count }
        requires are { (frame : ListFrame) × (tokens : List (ℕ × ℕ)) × Stand frame self count tokens }
        ensures { (frame : ListFrame) (tokens : List (ℕ × ℕ)) → Stand frame self count tokens
            → Stand frame result.0 (count - count / 2) (every_second 0 tokens)
            × Stand frame result.1 (count / 2) (every_second 1 tokens) }
    {
        let gap = 2 * self.gap;
        let even = Places { gap, ..self };
        let first = self.first + self.gap;
        (even, Places { first, gap })
    }

    fn leave(
        self,
        notes: &mut Granting<'g, 'c>,
        count: usize,
        exit: u32,
        first: u64,
        width: u32,
        base: u64,
    ) {
        let clients = notes.list.clients;
        let grants = &mut *notes.grants;
        let list = &mut *notes.list;
        for number in 0..count {
            let place = self.first + self.gap * number;
            let visit = first + number as u64;
            let name = name_of(width, exit, visit) - base;
            grants.push_reserved(Grant {
                client: clients[place],
                exit,
                visit,
                name,
            });
            list.write(place, name);
        }
    }
}

impl<'c> Walk<()> for Together<'c> {
    ghost many = { λ all. length all.clients.now };

    ghost Walked = { λ start old new entry _ v w. HaveWalked start old.clients.now entry v w
        × (new.names.ghost_name ≡ old.names.ghost_name)
        × (length old.names.now ≡ length old.clients.now → HaveNames v w old.clients.now new.names.now) };

    fn count(&self) -> u64 {
        self.clients.len() as u64
    }

    fn walk(&mut self, floor: &Floor<'_>, post: &mut Post, grants: &mut Vec<Grant>, entry: u32) {
        let all = Places { first: 0, gap: 1 };
        walk_party(
            floor,
            post,
            &mut Granting { grants, list: self },
            all,
            entry,
        );
    }
}

/// Lets the clients of a list in by one entry and walks them out, all who stand on a wire by one atomic step: a
/// step by which they come in, and one for each sweep of a wire, on which some of them stand. Nobody of the lane is
/// inside. Where they stand is in locals, and not in the lane's yard. The name of each is written at its place of the
/// list `names`, if that is as long as the list of clients; who wants no names gives an empty one. It waits for nobody,
/// and takes memory only if the lane lacks room, and then only for their grants.
///
/// # Errors
/// The first that stands: `NoSuchEntry`, `QuotaSpent` (there are more clients than quota), `Memory` (the lane has
/// less room, and gets no memory). Then nothing has changed.
pub fn name_all(
    floor: &Floor<'_>,
    lane: &mut Lane,
    clients: &[u64],
    entry: u64,
    names: &mut [u64],
) -> Result<(), LaneFault>
    requires own { lane.old.home ≡ floor.now }
    requires out { tokens_in lane.old.yard.lists ≡ 0 }
    ensures ok { OnOk result (AreNamed lane.old lane.new clients.now entry) }
    ensures names { OnOk result (length names.old ≡ length clients.now
        → HaveNames lane.old.view lane.new.view clients.now names.new) }
    ensures err { OnErr result ((lane.new ≡ lane.old) × (names.new ≡ names.old)) }
    ensures entry { IsErrOf result LaneFault.NoSuchEntry
        ↔ (floor.now.start.network.table.entries ≤ entry) }
    ensures quota { IsErrOf result LaneFault.QuotaSpent
        ↔ ((entry < floor.now.start.network.table.entries)
        × (lane.old.view.quota < length clients.now)) }
    ensures room { length clients.now ≤ lane.old.room → ¬ (IsErrOf result LaneFault.Memory) }
{
    floor.let_walk(lane, &mut Together { clients, names }, entry)
}
