//! How a floor begins.

ghost use Rattle.std.specs.Prelude.{◌≡◌, ◌+◌, ◌*◌, ◌<◌, ◌≤◌, ◌↔◌, length, replicate, IfErr, IfOk, IfSome, IsErrOf};
ghost use Rattle.cn_spec.specs.declared.limits.TheConstants.{MOST_CARRIED, MOST_CLIENTS, MOST_NAMED};
ghost use Rattle.cn_tables.specs.Network.{IsNetwork};
ghost use Rattle.cn_yard.specs.Lists.{empty, tokens_in};
ghost use Rattle.cn_floor.specs.Carried.{client_count, start_after, zero_words};
ghost use Rattle.cn_floor.specs.InsideLeftovers.{spare_in};
ghost use Rattle.cn_floor.specs.Lane.{IsIdle, empty_lane, empty_post};
ghost use Rattle.cn_floor.specs.Rule.{IsCarried};
ghost use Rattle.cn_floor.specs.Views.{base};
ghost use Rattle.cn_floor.specs.Words.{clients_in, word_count};
ghost use Rattle.cn_spec.specs.declared.limits.TheConstants.{MOST_TAKEN};

use super::Floor;
use super::counters::Counters;
use super::lane::Lane;
use super::leftovers::Leftovers;
use super::network_ref::NetworkRef;
use super::post::Post;
use super::words::Words;
use crate::fault::OpenFault;
use cn_spec::limits::MOST_CLIENTS;
use cn_tables::Counting;
use cn_yard::Yard;
use std::alloc::{AllocError, Global};

/// A word of 0 for the lanes, and one for each entry, balancer and exit.
///
/// # Errors
/// `AllocError` if they get no memory.
pub(super) fn zeros(alloc: Global, network: &Counting) -> Result<Vec<u64>, AllocError>
    ensures network { IsNetwork network.now }
    ensures words { IfOk result (λ words. words.items
        ≡ replicate (word_count network.now.table) 0) }
    ensures many { IfOk result (λ words. length words.items ≡ word_count network.now.table) }
    ensures carried { IfOk result (λ words. IsCarried network.now.table words.items) }
    ensures nobody { IfOk result (λ words. clients_in network.now.table words.items ≡ 0) }
{
    let entries = network.entries() as usize;
    let ends = network.balancers() as usize + network.width() as usize;
    let words = Vec::from_elem(alloc, 0u64, 1 + entries + ends)?;
    Ok(words)
}

/// A yard with a wire for each of the network. It takes no memory.
pub(super) fn yard_for(alloc: Global, network: &Counting) -> Yard
    ensures empty { result ≡ empty (length network.now.table.ends) }
    ensures idle { IsIdle network.now result.lists }
    ensures nobody { tokens_in result.lists ≡ 0 }
{
    let Ok(yard) = Yard::new(alloc, network.entries() + 2 * network.balancers()) else {
        unreachable!()
    };
    yard
}

/// Whether so many clients may come in.
///
/// # Errors
/// `Quota` if they are more than [`MOST_CLIENTS`].
fn quota_fits(quota: u64) -> Result<(), OpenFault>
    ensures ok { IfOk result (λ _. quota ≤ MOST_CLIENTS) }
    ensures err { IfErr result (λ fault. (fault ≡ OpenFault.Quota) × (MOST_CLIENTS < quota)) }
{
    if quota > MOST_CLIENTS {
        return Err(OpenFault::Quota);
    }
    Ok(())
}

impl<'a> Floor<'a> {
    /// A floor over the network, with one lane that has the whole quota: as many clients may come in. It is
    /// [`Floor::open_words`] of [`Words::zero`].
    ///
    /// # Errors
    /// The first that stands: `Quota` (more than [`MOST_CLIENTS`]), `Memory`.
    pub fn open(
        alloc: Global,
        network: &'a Counting,
        quota: u64,
    ) -> Result<(Floor<'a>, Lane), OpenFault>
        ensures floor { IfOk result (λ r. (r.0.start.network ≡ network.now)
            × (r.0.start.quota ≡ quota)) }
        ensures zero { IfOk result (λ r. r.0.start.words
            ≡ replicate (word_count network.now.table) 0) }
        ensures base { IfOk result (λ r. base r.0.start ≡ 0) }
        ensures start { IfOk result (λ r. r.0.start ≡ start_after (zero_words network.now) quota) }
        ensures lane { IfOk result (λ r. r.1 ≡ empty_lane r.0 quota) }
        ensures spaced { IfOk result (λ r. r.0.table.words ≡ word_count network.now.table) }
        ensures quota { IsErrOf result OpenFault.Quota ↔ (MOST_CLIENTS < quota) }
    {
        quota_fits(quota)?;
        Floor::open_words(alloc, Words::zero(alloc, network)?, quota)
    }

    /// A floor as [`Floor::open_words`] opens it, over a copy of the words.
    ///
    /// # Errors
    /// The first that stands: `Quota` (more than [`MOST_CLIENTS`]), `Memory`.
    pub fn open_after(
        alloc: Global,
        words: &Words<'a>,
        quota: u64,
    ) -> Result<(Floor<'a>, Lane), OpenFault>
        requires few { client_count words.now ≤ MOST_CARRIED }
        ensures floor { IfOk result (λ r. r.0.start ≡ start_after words.now quota) }
        ensures lane { IfOk result (λ r. r.1 ≡ empty_lane r.0 quota) }
        ensures spaced { IfOk result (λ r. r.0.table.words
            ≡ words.now.stride * word_count words.now.network.table) }
        ensures quota { IsErrOf result OpenFault.Quota ↔ (MOST_CLIENTS < quota) }
    {
        quota_fits(quota)?;
        Floor::open_words(alloc, words.copy(alloc)?, quota)
    }

    /// A floor that goes on from what another left, and takes the words and the yard of that. Over leftovers of nobody
    /// ([`Leftovers::new`]) it is that of [`Floor::open`], over those of a closed floor that of [`Floor::open_words`],
    /// and its lane may have spare records. They count at most [`cn_spec::limits::MOST_CARRIED`] clients, and the quota
    /// is at most [`cn_spec::limits::MOST_NAMED`].
    ///
    /// # Errors
    /// The leftovers, if a growth was refused. Their words are as they were.
    pub fn open_on(
        alloc: Global,
        leftovers: Leftovers<'a>,
        quota: u64,
    ) -> Result<(Floor<'a>, Lane), Leftovers<'a>>
        requires few { (client_count leftovers.words ≤ MOST_CARRIED) × (quota ≤ MOST_NAMED) }
        ensures floor { IfOk result (λ r. r.0.start ≡ start_after leftovers.entry.words quota) }
        ensures lane { IfOk result (λ r. r.1 ≡ record (empty_lane r.0 quota) { yard = r.1.yard }) }
        ensures idle { IfOk result (λ r. IsIdle leftovers.entry.words.network r.1.yard.lists) }
        ensures spare { IfOk result (λ r. r.1.yard.spare ≡ leftovers.entry.spare) }
        ensures spaced { IfOk result (λ r. r.0.table.words
            ≡ leftovers.entry.words.stride * word_count leftovers.entry.words.network.table) }
        ensures back { IfErr result (λ back. back.words ≡ leftovers.entry.words) }
    {
        let (words, yard) = leftovers.into_parts();
        // The yard that is there, with its free records, or else a new one.
        let yard = match yard {
            Some(yard) => yard,
            None => yard_for(alloc, words.network()),
        };
        match Floor::begin(alloc, words, quota, yard) {
            Ok(opened) => Ok(opened),
            Err(words) => Err(Leftovers { words, yard: None }),
        }
    }

    /// A floor over the network of these words, which goes on from them: its numbers and visits begin with theirs, and
    /// its names are those of its own clients. It has one lane with the whole quota. The words say who has the network
    /// ([`Words::zero`] borrows it, [`Words::zero_shared`] shares it), who came before ([`crate::Quiet::into_words`]),
    /// and how they lie in memory ([`Words::apart`]). They count at most [`cn_spec::limits::MOST_CARRIED`] clients.
    ///
    /// # Errors
    /// The first that stands: `Quota` (more than [`MOST_CLIENTS`]), `Memory`.
    pub fn open_words(
        alloc: Global,
        words: Words<'a>,
        quota: u64,
    ) -> Result<(Floor<'a>, Lane), OpenFault>
        requires few { client_count words ≤ MOST_CARRIED }
        ensures floor { IfOk result (λ r. r.0.start ≡ start_after words.entry quota) }
        ensures lane { IfOk result (λ r. r.1 ≡ empty_lane r.0 quota) }
        ensures spaced { IfOk result (λ r. r.0.table.words
            ≡ words.entry.stride * word_count words.entry.network.table) }
        ensures quota { IsErrOf result OpenFault.Quota ↔ (MOST_CLIENTS < quota) }
    {
        quota_fits(quota)?;
        let yard = yard_for(alloc, words.network());
        match Floor::begin(alloc, words, quota, yard) {
            Ok(opened) => Ok(opened),
            Err(_words) => Err(OpenFault::Memory),
        }
    }

    /// A floor that goes on from these words, with this yard for its lane. If it gets no memory the words come back.
    fn begin(
        alloc: Global,
        words: Words<'a>,
        quota: u64,
        yard: Yard,
    ) -> Result<(Floor<'a>, Lane), Words<'a>>
        requires few { (client_count words ≤ MOST_CARRIED) × (quota ≤ MOST_NAMED) }
        requires idle { IsIdle words.network yard.lists }
        ensures floor { IfOk result (λ r. r.0.start ≡ start_after words.entry quota) }
        ensures lane { IfOk result (λ r. r.1 ≡ record (empty_lane r.0 quota) { yard = yard }) }
        ensures spaced { IfOk result (λ r. r.0.table.words
            ≡ words.entry.stride * word_count words.entry.network.table) }
        ensures back { IfErr result (λ back. back ≡ words.entry) }
    {
        match Floor::lay(alloc, words, quota) {
            Ok((floor, post)) => {
                let lane = Lane {
                    post,
                    yard,
                    grants: Vec::new(alloc),
                    room: 0,
                };
                Ok((floor, lane))
            }
            Err(words) => Err(words),
        }
    }

    /// A floor that goes on from these words, and its one post, which has the whole quota. If it gets no memory the
    /// words come back.
    pub fn lay(alloc: Global, words: Words<'a>, quota: u64) -> Result<(Floor<'a>, Post), Words<'a>>
        requires few { (client_count words ≤ MOST_TAKEN) × (quota ≤ MOST_TAKEN) }
        ensures floor { IfOk result (λ r. r.0.start ≡ start_after words.entry quota) }
        ensures post { IfOk result (λ r. r.1 ≡ empty_post r.0 quota) }
        ensures spaced { IfOk result (λ r. r.0.table.words
            ≡ words.entry.stride * word_count words.entry.network.table) }
        ensures back { IfErr result (λ back. back ≡ words.entry) }
    {
        let stride = words.spacing.stride();
        let made = Counters::new(alloc, words.network(), quota, &words.words, stride);
        let Ok((counters, seat)) = made else {
            return Err(words);
        };
        let floor = Floor {
            alloc,
            base: words.clients,
            before: words,
            counters,
        };
        Ok((floor, Post { seat, quota }))
    }
}
