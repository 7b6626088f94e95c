//! A closed floor, before anybody asks what has risen.

ghost use Rattle.std.specs.Prelude.{◌≡◌, ◌+◌, ◌≤◌, IfOk, [], ◌∷◌, length, map};
ghost use Rattle.cn_spec.specs.Step.{IsEachBelow};
ghost use Rattle.cn_spec.specs.declared.limits.TheConstants.{MOST_CARRIED, MOST_NAMED};
ghost use Rattle.cn_floor.specs.Carried.{client_count, words_before};
ghost use Rattle.cn_floor.specs.Ends.{IsClosedFloor, ListsHolders, words_after};
ghost use Rattle.cn_floor.specs.Words.{word_count};

use super::lane::Lane;
use super::leftovers::Leftovers;
use super::network_ref::NetworkRef;
use super::quiet::Quiet;
use super::reading::copy_words;
use super::receipts::Receipts;
use super::words::Words;
use super::zeros;
use crate::view::Grant;
use atomic_table::Closed;
use std::alloc::{AllocError, Global};
use std::marker::Model;
use std::snapshot::Snapshot;

/// A closed floor: its words, and the grants of its one lane. Only [`super::Floor::close_for`] makes it.
pub struct ClosedFloor<'a> {
    pub(super) alloc: Global,
    pub(super) lane: Snapshot<Lane>,
    pub(super) network: NetworkRef<'a>,
    /// Its words stay in their table: most callers ask for few of them.
    pub(super) table: Closed<(), Global>,
    /// How far apart neighbours lie in it.
    pub(super) stride: usize,
    /// How many clients the words count.
    pub(super) clients: u64,
    pub(super) grants: Vec<Grant>,
}

impl<'a> Model for ClosedFloor<'a> {
    ghost use Rattle.cn_floor.specs.Ends.{QuietValue};
    ghost use Rattle.cn_floor.specs.InsideClosedFloor.{KeepsClosedFloor, closed_of};

    ghost Value = { QuietValue };

    ghost view = { closed_of };

    ghost invariant = { KeepsClosedFloor };
}

impl<'a> ClosedFloor<'a> {
    /// What holds of each closed floor.
    ///
    /// It does nothing: its contract is the law.
    pub fn closed_laws(&self)
        ensures closed { IsClosedFloor self.now.start self.now.did self.now.words }
        ensures few { client_count (words_after self.now) ≤ MOST_CARRIED + MOST_NAMED }
    {
        // Opens what each closed floor keeps.
        let _ = &self.grants;
    }

    /// Writes the clients by rising name over a list of as many: `holders[n]` is the client with name n. It takes no
    /// memory.
    pub fn list_holders(&self, holders: &mut [u64])
        requires { length holders.old ≡ length self.now.did.grants }
        ensures { ListsHolders self.now.did.grants holders.new }
    {
        self.closed_laws();
        put_holders(self.grants.as_slice(), holders);
    }

    /// That it was closed. It is given up for that: so each closed floor has one receipt at most.
    pub fn receipt(self) -> Receipts
        ensures { result ≡ self.entry ∷ [] }
    {
        Receipts::of_one(&self.lane, &self.table, &self.stride)
    }

    /// Copies its words over a list of as many.
    pub(super) fn copy_words(&self, list: &mut Vec<u64>)
        requires { length list.old.items ≡ length self.now.words }
        ensures { list.new.items ≡ self.now.words }
    {
        copy_words(&self.table, self.stride, list);
    }

    /// The same closed floor, with its words in a list, and with how much each has risen since it began: what is left
    /// of it has these words.
    ///
    /// # Errors
    /// `AllocError` if the list gets no memory.
    pub fn into_quiet(self, leftovers: Leftovers<'a>) -> Result<Quiet<'a>, AllocError>
        requires { leftovers.words ≡ words_before self.start }
        ensures { IfOk result (λ quiet. quiet ≡ self.entry) }
    {
        let room = zeros(self.alloc, self.network.get())?;
        Ok(self.quiet_in(leftovers.into_words(), room))
    }

    /// The same closed floor as [`ClosedFloor::into_quiet`] makes of it, in a list with a place for each word, by the
    /// words with which it began.
    pub(super) fn quiet_in(self, before: Words<'a>, room: Vec<u64>) -> Quiet<'a>
        requires before { before ≡ words_before self.start }
        requires room { length room.items ≡ word_count self.start.network.table }
        ensures { result ≡ self.entry }
    {
        let ClosedFloor {
            alloc,
            lane,
            network,
            table,
            stride,
            clients,
            grants,
        } = self;
        let mut list = room;
        copy_words(&table, stride, &mut list);
        table.free();
        let spacing = before.spacing;
        let risen = before.risen_to(&list);
        Quiet {
            alloc,
            lane,
            words: Words::closed(network, list, clients, spacing),
            grants,
            risen,
        }
    }
}

// By hand, since only its own call gives up the memory of a closed table.
impl Drop for ClosedFloor<'_> {
    fn drop(self) {
        let ClosedFloor {
            alloc: _alloc,
            lane: _lane,
            network: _network,
            table,
            stride: _stride,
            clients: _clients,
            grants: _grants,
        } = self;
        table.free();
    }
}

/// Writes each grant's client at the place of its name. The names are those below the number of grants, each once.
pub(super) fn put_holders(grants: &[Grant], holders: &mut [u64])
    requires places { length holders.old ≡ length grants.now }
    requires names { IsEachBelow (length grants.now) (map (λ g. g.name) grants.now) }
    ensures { ListsHolders grants.now holders.new }
{
    for grant in grants {
        holders[grant.name as usize] = grant.client;
    }
}
