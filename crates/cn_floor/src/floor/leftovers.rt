//! What one floor leaves for the next.

ghost use Rattle.std.specs.Prelude.{◌≡◌, IfOk, IfSome};
ghost use Rattle.cn_floor.specs.Carried.{client_count, zero_words};
ghost use Rattle.cn_floor.specs.Ends.{words_after};
ghost use Rattle.cn_floor.specs.InsideLeftovers.{spare_in};
ghost use Rattle.cn_floor.specs.Lane.{IsIdle};

use super::closed_floor::ClosedFloor;
use super::words::Words;
use super::yard_for;
use cn_tables::Counting;
use cn_yard::Yard;
use std::alloc::{AllocError, Global};
use std::marker::Model;

/// What a floor leaves for the next one over its network ([`super::Floor::open_on`]): the words with which that begins,
/// and the yard of a lane, in which nobody is.
pub struct Leftovers<'a> {
    pub(super) words: Words<'a>,
    /// None if it was lost with a floor that was not closed.
    pub(super) yard: Option<Yard>,
}

impl<'a> Model for Leftovers<'a> {
    ghost use Rattle.cn_floor.specs.Carried.{LeftoversValue};
    ghost use Rattle.cn_floor.specs.InsideLeftovers.{KeepsLeftovers, leftovers_of};

    ghost Value = { LeftoversValue };

    ghost view = { leftovers_of };

    ghost invariant = { KeepsLeftovers };
}

impl<'a> Leftovers<'a> {
    /// What a first floor begins with: words that are all 0, and a yard.
    ///
    /// # Errors
    /// `AllocError` if they get no memory.
    pub fn new(alloc: Global, network: &'a Counting) -> Result<Leftovers<'a>, AllocError>
        ensures zero { IfOk result (λ leftovers. leftovers.words ≡ zero_words network.now) }
        ensures nobody { IfOk result (λ leftovers. client_count leftovers.words ≡ 0) }
    {
        Ok(Leftovers {
            words: Words::zero(alloc, network)?,
            yard: Some(yard_for(alloc, network)),
        })
    }

    /// The words with which the next floor begins.
    pub fn words(&self) -> &Words<'a>
        ensures { result.now ≡ self.now.words }
    {
        &self.words
    }

    /// The words with which the next floor would begin.
    pub(super) fn into_words(self) -> Words<'a>
        ensures { result ≡ self.entry.words }
    {
        let Leftovers { words, yard: _yard } = self;
        words
    }

    /// The words with which the next floor begins, and the yard for its lane, if there is one.
    pub(super) fn into_parts(self) -> (Words<'a>, Option<Yard>)
        ensures words { result.0 ≡ self.entry.words }
        ensures yard { IfSome result.1 (λ yard. IsIdle self.entry.words.network yard.lists) }
        ensures spare { spare_in result.1 ≡ self.entry.spare }
    {
        let Leftovers { words, yard } = self;
        (words, yard)
    }

    /// The same yard, with the words of a closed floor over the same network in place of its own. It takes no memory.
    pub fn go_on_from(self, closed: &ClosedFloor<'_>) -> Leftovers<'a>
        requires { closed.now.start.network ≡ self.words.network }
        ensures { result ≡ record {
          words = record (words_after closed.now) { stride = self.entry.words.stride };
          spare = self.entry.spare;
        } }
    {
        let Leftovers { words, yard } = self;
        Leftovers {
            words: words.overwritten(closed),
            yard,
        }
    }
}

// By hand, as that of the network that it holds: it is one call where a value is dropped.
impl Drop for Leftovers<'_> {
    fn drop(self) {
        let Leftovers {
            words: _words,
            yard: _yard,
        } = self;
    }
}
