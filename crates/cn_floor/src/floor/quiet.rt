//! What a closed floor leaves.

ghost use Rattle.std.specs.Prelude.{◌≡◌, ◌+◌, ◌≤◌, length, IfOk};
ghost use Rattle.cn_spec.specs.declared.limits.TheConstants.{MOST_CARRIED, MOST_NAMED};
ghost use Rattle.cn_floor.specs.Carried.{client_count};
ghost use Rattle.cn_floor.specs.Ends.{HasRisen, IsClosedFloor, ListsHolders, counts_by_exit, passes_of, words_after};

use super::closed_floor::put_holders;
use super::lane::Lane;
use super::words::Words;
use crate::view::Grant;
use std::alloc::{AllocError, Global};
use std::marker::Model;
use std::snapshot::Snapshot;

/// What a closed floor leaves: its counts, and the grants of its one lane. Only the close of a floor
/// makes it.
pub struct Quiet<'a> {
    pub(super) alloc: Global,
    pub(super) lane: Snapshot<Lane>,
    pub(super) words: Words<'a>,
    pub(super) grants: Vec<Grant>,
    /// How much each word has risen since the floor began; without one, as much as it counts.
    pub(super) risen: Option<Vec<u64>>,
}

impl<'a> Model for Quiet<'a> {
    ghost use Rattle.cn_floor.specs.Ends.{QuietValue};
    ghost use Rattle.cn_floor.specs.InsideQuiet.{KeepsQuiet, quiet_of};

    ghost Value = { QuietValue };

    ghost view = { quiet_of };

    ghost invariant = { KeepsQuiet };
}

impl<'a> Quiet<'a> {
    /// What holds of each closed floor: nobody is inside, the counts are the shares of all that came in, and the names
    /// are those below their number, each once.
    ///
    /// It does nothing: its contract is the law.
    pub fn quiet_laws(&self)
        ensures closed { IsClosedFloor self.now.start self.now.did self.now.words }
        ensures few { client_count (words_after self.now) ≤ MOST_CARRIED + MOST_NAMED }
    {
        // Opens what each quiet floor keeps.
        let _ = &self.grants;
    }

    /// The lane's grants, in its order.
    pub fn grants(&self) -> &[Grant]
        ensures { result.now ≡ self.now.did.grants }
    {
        self.grants.as_slice()
    }

    /// How much each word has risen since the floor began.
    fn risen(&self) -> &[u64]
        ensures { HasRisen self.now.start self.now.words result.now }
    {
        self.quiet_laws();
        match &self.risen {
            Some(risen) => risen.as_slice(),
            None => self.words.words.as_slice(),
        }
    }

    /// How many left by each exit since the floor began: each exit's share.
    pub fn counts(&self) -> &[u64]
        ensures { result.now ≡ counts_by_exit self.now.start self.now.words }
    {
        let network = self.words.network();
        let first = 1 + network.entries() as usize + network.balancers() as usize;
        &self.risen()[first..first + network.width() as usize]
    }

    /// How many passed each balancer since the floor began.
    pub fn passes(&self) -> &[u64]
        ensures { result.now ≡ passes_of self.now.start self.now.words }
    {
        let network = self.words.network();
        let first = 1 + network.entries() as usize;
        &self.risen()[first..first + network.balancers() as usize]
    }

    /// The words of the floor, with which another may begin.
    pub fn words(&self) -> &Words<'a>
        ensures { result.now ≡ words_after self.now }
    {
        &self.words
    }

    /// The same words, without the floor's grants.
    pub fn into_words(self) -> Words<'a>
        ensures { result ≡ words_after self.entry }
    {
        let Quiet {
            alloc: _alloc,
            lane: _lane,
            words,
            grants: _grants,
            risen: _risen,
        } = self;
        words
    }

    /// Writes the clients by rising name over a list of as many, as [`crate::ClosedFloor::list_holders`] does.
    pub fn list_holders(&self, holders: &mut [u64])
        requires { length holders.old ≡ length self.now.did.grants }
        ensures { ListsHolders self.now.did.grants holders.new }
    {
        self.quiet_laws();
        put_holders(self.grants.as_slice(), holders);
    }

    /// The clients by rising name: `holders[n]` is the client with name n.
    ///
    /// # Errors
    /// `AllocError` if the list gets no memory.
    pub fn holders(&self) -> Result<Vec<u64>, AllocError>
        ensures { IfOk result (λ holders. ListsHolders self.now.did.grants holders.items) }
    {
        let mut holders = vec![in self.alloc; 0; self.grants().len()]?;
        self.list_holders(&mut holders);
        Ok(holders)
    }
}

// By hand, as that of the network that it holds: it is one call where a value is dropped.
impl Drop for Quiet<'_> {
    fn drop(self) {
        drop(self.into_words());
    }
}
