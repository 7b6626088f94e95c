//! The words of closed floors, and how words lie in memory.

ghost use Rattle.std.specs.Arc.{arc_value};
ghost use Rattle.std.specs.Prelude.{◌≡◌, ◌<◌, None, length, IfOk, IfSome};
ghost use Rattle.cn_tables.specs.declared.end.End.TheVariants.{Balancer, Exit};
ghost use Rattle.cn_floor.specs.Carried.{AreTight, IsClosed, client_count, zero_words};
ghost use Rattle.cn_floor.specs.Ends.{words_after};
ghost use Rattle.cn_floor.specs.Spacing.{stride_of};
ghost use Rattle.cn_floor.specs.Spread.{IsStride};
ghost use Rattle.cn_floor.specs.declared.floor.counters.TheConstants.{MOST_STRIDE};
ghost use Rattle.cn_floor.specs.Words.{IsDifference, NoneWent, count_in, entered_in};

use super::closed_floor::ClosedFloor;
use super::counters::MOST_STRIDE;
use super::network_ref::NetworkRef;
use super::reading::rise;
use super::zeros;
use cn_tables::Counting;
use std::alloc::{AllocError, Global};
use std::marker::Model;
use std::sync::Arc;

/// How the words of a floor lie in memory.
#[derive(Clone, Copy)]
pub(super) enum Spacing {
    /// Side by side.
    Packed,
    /// 128 bytes apart: no two of them lie in one cache line, or in two lines that a processor fetches together.
    Apart,
}

impl Spacing {
    /// How many words it is from one to the next.
    pub(super) fn stride(self) -> usize
        ensures stride { IsStride result }
        ensures exact { result ≡ stride_of self }
    {
        match self {
            Spacing::Packed => 1,
            Spacing::Apart => MOST_STRIDE,
        }
    }
}

/// The words of closed floors over a network: how many clients came in by each entry, passed each balancer and left by
/// each exit since each word was 0. Another floor may go on from them ([`super::Floor::open_words`]),
/// in which they lie side by side, or apart ([`Words::apart`]).
///
/// Only [`Words::zero`], [`Words::zero_shared`] and the close of a floor make them. No reader takes memory.
pub struct Words<'a> {
    pub(super) network: NetworkRef<'a>,
    pub(super) words: Vec<u64>,
    pub(super) clients: u64,
    /// How the words of a floor that goes on from them lie in memory.
    pub(super) spacing: Spacing,
}

impl<'a> Model for Words<'a> {
    ghost use Rattle.cn_floor.specs.Carried.{WordsValue};
    ghost use Rattle.cn_floor.specs.InsideWords.{KeepsWords, words_of};

    ghost Value = { WordsValue };

    ghost view = { words_of };

    ghost invariant = { KeepsWords };
}

impl<'a> Words<'a> {
    /// Words of which each is 0: nobody came.
    ///
    /// # Errors
    /// `AllocError` if they get no memory.
    pub fn zero(alloc: Global, network: &'a Counting) -> Result<Words<'a>, AllocError>
        ensures zero { IfOk result (λ words. words ≡ zero_words network.now) }
        ensures nobody { IfOk result (λ words. client_count words ≡ 0) }
    {
        Words::zero_over(alloc, NetworkRef::borrowed(network))
    }

    /// Words of which each is 0, which hold the network together with the caller.
    ///
    /// # Errors
    /// `AllocError` if they get no memory.
    pub fn zero_shared(
        alloc: Global,
        network: &Arc<Counting, Global>,
    ) -> Result<Words<'a>, AllocError>
        ensures zero { IfOk result (λ words. words ≡ zero_words (arc_value network.now)) }
        ensures nobody { IfOk result (λ words. client_count words ≡ 0) }
    {
        Words::zero_over(alloc, NetworkRef::shared(network)?)
    }

    /// Words of which each is 0, over a network that is held in some way.
    ///
    /// # Errors
    /// `AllocError` if they get no memory.
    pub(super) fn zero_over(alloc: Global, network: NetworkRef<'a>) -> Result<Words<'a>, AllocError>
        ensures zero { IfOk result (λ words. words ≡ zero_words network.entry) }
        ensures nobody { IfOk result (λ words. client_count words ≡ 0) }
    {
        let words = zeros(alloc, network.get())?;
        Ok(Words {
            network,
            words,
            clients: 0,
            spacing: Spacing::Packed,
        })
    }

    /// The same words; those of a floor that goes on from them lie 128 bytes apart in memory, with zeros between.
    pub fn apart(mut self) -> Words<'a>
        ensures { result ≡ record self.entry { stride = MOST_STRIDE } }
    {
        self.spacing = Spacing::Apart;
        self
    }

    /// Those of a floor that is closed, with the number of all their clients, and how they lay.
    pub(super) fn closed(
        network: NetworkRef<'a>,
        words: Vec<u64>,
        clients: u64,
        spacing: Spacing,
    ) -> Words<'a>
        requires closed { IsClosed
            (record { network = network; words = words.items; stride = stride_of spacing }) }
        requires clients { clients
            ≡ client_count (record { network = network; words = words.items; stride = stride_of spacing }) }
        ensures { result
            ≡ record { network = network.entry; words = words.items; stride = stride_of spacing } }
    {
        Words {
            network,
            words,
            clients,
            spacing,
        }
    }

    /// These words, overwritten by those of a floor that is closed over the same network. They lie as before.
    pub(super) fn overwritten(mut self, closed: &ClosedFloor<'_>) -> Words<'a>
        requires { closed.now.start.network ≡ self.network }
        ensures { result ≡ record (words_after closed.now) { stride = self.entry.stride } }
    {
        self.words_laws();
        closed.closed_laws();
        closed.copy_words(&mut self.words);
        self.clients = closed.clients;
        self
    }

    /// The same words once more.
    ///
    /// # Errors
    /// `AllocError` if they get no memory.
    pub fn copy(&self, alloc: Global) -> Result<Words<'a>, AllocError>
        ensures { IfOk result (λ words. words ≡ self.now) }
    {
        Ok(Words {
            network: self.network.share()?,
            words: Vec::from_slice(alloc, self.words.as_slice())?,
            clients: self.clients,
            spacing: self.spacing,
        })
    }

    /// How much each word has risen from these to later ones. `None` if these count nobody: nobody went by an end then,
    /// and an end's later word is what it has risen.
    pub(super) fn risen_to(self, later: &Vec<u64>) -> Option<Vec<u64>>
        requires { length self.words ≡ length later.now.items }
        ensures some { IfSome result (λ risen.
            IsDifference self.entry.words later.now.items risen.items) }
        ensures none { result ≡ None → NoneWent self.entry.network.table self.entry.words }
    {
        if self.clients == 0 {
            return None;
        }
        let Words {
            network: _network,
            words: mut list,
            clients: _clients,
            spacing: _spacing,
        } = self;
        rise(&mut list, later);
        Some(list)
    }

    /// What holds of all closed words: they are those of a sound ledger with nobody inside. So each exit has let out
    /// its share of their clients, and the first visit on an exit of a floor that goes on from them is this share.
    ///
    /// It does nothing: its contract is the law.
    pub fn words_laws(&self)
        ensures closed { IsClosed self.now }
        ensures tight { AreTight self.now }
    {
        // Opens what all closed words keep.
        let _ = &self.words;
    }

    /// The network that they are of.
    pub fn network(&self) -> &Counting
        ensures { result.now ≡ self.now.network }
    {
        self.network.get()
    }

    /// One more holder of this network.
    ///
    /// # Errors
    /// `AllocError` if its holders cannot be counted.
    pub(super) fn share_network(&self) -> Result<NetworkRef<'a>, AllocError>
        ensures { IfOk result (λ network. network ≡ self.now.network) }
    {
        self.network.share()
    }

    /// How many clients came.
    pub fn clients(&self) -> u64
        ensures { result ≡ client_count self.now }
    {
        self.clients
    }

    /// How many came in by an entry of the network.
    pub fn entry_count(&self, entry: u32) -> u64
        requires { entry < self.now.network.table.entries }
        ensures { result ≡ entered_in self.now.network.table self.now.words entry }
    {
        self.words[1 + entry as usize]
    }

    /// How many passed a balancer of the network.
    pub fn pass_count(&self, balancer: u32) -> u64
        requires { balancer < self.now.network.table.balancers }
        ensures { result ≡ count_in self.now.network.table self.now.words (Balancer balancer) }
    {
        self.words[1 + self.network().entries() as usize + balancer as usize]
    }

    /// How many left by an exit of the network.
    pub fn exit_count(&self, exit: u32) -> u64
        requires { exit < self.now.network.table.width }
        ensures { result ≡ count_in self.now.network.table self.now.words (Exit exit) }
    {
        let network = self.network();
        let first = 1 + network.entries() as usize + network.balancers() as usize;
        self.words[first + exit as usize]
    }
}

// By hand, as that of the network that it holds: it is one call where a value is dropped.
impl Drop for Words<'_> {
    fn drop(self) {
        let Words {
            network: _network,
            words: _words,
            clients: _clients,
            spacing: _spacing,
        } = self;
    }
}
