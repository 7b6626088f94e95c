//! How a floor ends.

ghost use Rattle.std.specs.Prelude.{◌≡◌, length, IfErr, IfOk};
ghost use Rattle.cn_yard.specs.Lists.{tokens_in};
ghost use Rattle.cn_floor.specs.Carried.{words_before};
ghost use Rattle.cn_floor.specs.Closing.{IsCloseRefused};
ghost use Rattle.cn_floor.specs.Words.{word_count};

use super::closed_floor::ClosedFloor;
use super::lane::Lane;
use super::leftovers::Leftovers;
use super::network_ref::NetworkRef;
use super::quiet::Quiet;
use super::reading::clients_of;
use super::{Floor, zeros};
use crate::view::Grant;
use std::alloc::AllocError;
use std::snapshot::Snapshot;

/// Why a floor is not closed.
#[derive(Drop)]
pub enum CloseFault<'a> {
    /// The lane has tokens.
    StillWalking(Floor<'a>, Lane),
    /// A growth was refused.
    Memory(Floor<'a>, Lane),
    /// Other lanes have what came in. The floor is spent.
    LanesMissing {
        /// How many clients came in, by all lanes.
        entered: u64,
        /// How many grants the lane has.
        granted: u64,
        /// The lane's grants.
        grants: Vec<Grant>,
    },
}

impl<'a> Floor<'a> {
    /// Ends the floor. Its lane must have the grants of all that came in.
    ///
    /// # Errors
    /// The first that stands: `StillWalking` (the lane has tokens) and `Memory` give floor and lane back;
    /// `LanesMissing` if the lane's grants are fewer than those that came in. Then the floor is spent.
    pub fn close(self, lane: Lane) -> Result<Quiet<'a>, CloseFault<'a>>
        requires own { lane.home ≡ self }
        ensures quiet { IfOk result (λ q. (q.start ≡ self.entry.start) × (q.did ≡ lane.view)) }
        ensures out { IfOk result (λ q. tokens_in lane.yard.lists ≡ 0) }
        ensures refused { IfErr result (λ f. IsCloseRefused self.entry lane f) }
    {
        if lane.inside() > 0 {
            return Err(CloseFault::StillWalking(self, lane));
        }
        let Ok(room) = zeros(self.alloc, self.network()) else {
            return Err(CloseFault::Memory(self, lane));
        };
        let (closed, leftovers) = self.close_for(lane)?;
        Ok(closed.quiet_in(leftovers.into_words(), room))
    }

    /// One more holder of its network.
    ///
    /// # Errors
    /// `AllocError` if its holders cannot be counted.
    fn share_network(&self) -> Result<NetworkRef<'a>, AllocError>
        ensures { IfOk result (λ network. network ≡ self.now.start.network) }
    {
        self.before.share_network()
    }

    /// Gives up the floor, for the words with which it began.
    pub fn give_up(self) -> Leftovers<'a>
        ensures { result.words ≡ words_before self.entry.start }
    {
        let Floor {
            alloc: _alloc,
            base: _base,
            before,
            counters: _counters,
        } = self;
        Leftovers {
            words: before,
            yard: None,
        }
    }

    /// Ends the floor as [`Floor::close`] does, and leaves what the next one may take: the words with which it began,
    /// and the yard of its lane, with its free records.
    ///
    /// # Errors
    /// As those of [`Floor::close`].
    pub fn close_for(self, lane: Lane) -> Result<(ClosedFloor<'a>, Leftovers<'a>), CloseFault<'a>>
        requires own { lane.home ≡ self }
        ensures closed { IfOk result (λ r. (r.0.start ≡ self.entry.start) × (r.0.did ≡ lane.view)) }
        ensures leftovers { IfOk result (λ r. r.1.words ≡ words_before self.entry.start) }
        ensures spare { IfOk result (λ r. r.1.spare ≡ lane.yard.spare) }
        ensures out { IfOk result (λ r. tokens_in lane.yard.lists ≡ 0) }
        ensures refused { IfErr result (λ f. IsCloseRefused self.entry lane f) }
    {
        if lane.inside() != 0 {
            return Err(CloseFault::StillWalking(self, lane));
        }
        match self.share_network() {
            Ok(network) => self.end(lane, network),
            Err(_) => Err(CloseFault::Memory(self, lane)),
        }
    }

    /// Ends the floor by a lane with no token, with a holder of its network for its words.
    fn end(
        self,
        lane: Lane,
        network: NetworkRef<'a>,
    ) -> Result<(ClosedFloor<'a>, Leftovers<'a>), CloseFault<'a>>
        requires own { lane.home ≡ self }
        requires out { tokens_in lane.yard.lists ≡ 0 }
        requires network { network ≡ self.start.network }
        ensures closed { IfOk result (λ r. (r.0.start ≡ self.entry.start) × (r.0.did ≡ lane.view)) }
        ensures leftovers { IfOk result (λ r. r.1.words ≡ words_before self.entry.start) }
        ensures spare { IfOk result (λ r. r.1.spare ≡ lane.yard.spare) }
        ensures refused { IfErr result (λ f. IsCloseRefused self.entry lane f) }
    {
        let kept = Snapshot::of(&lane);
        let Floor {
            alloc,
            base,
            before,
            counters,
        } = self;
        lane.lane_laws();
        let Lane {
            post,
            yard,
            grants,
            ..
        } = lane;
        let (table, stride) = counters.close(post);
        let clients = clients_of(before.network(), &table, stride);
        let entered = clients - base;
        let granted = grants.len() as u64;
        if entered != granted {
            table.free();
            return Err(CloseFault::LanesMissing {
                entered,
                granted,
                grants,
            });
        }
        let closed = ClosedFloor {
            alloc,
            lane: kept,
            network,
            table,
            stride,
            clients,
            grants,
        };
        let leftovers = Leftovers {
            words: before,
            yard: Some(yard),
        };
        Ok((closed, leftovers))
    }
}
