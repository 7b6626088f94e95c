//! Lanes of one floor are split and joined.

ghost use Rattle.std.specs.Prelude.{◌≡◌, ◌+◌, ◌-◌, ◌<◌, ◌≤◌, ◌↔◌, ◌++◌, length, vec_capacity, vec_len, IfErr, IfOk, IsErrOf, OnErr, OnOk};
ghost use Rattle.cn_yard.specs.Lists.{tokens_in};
ghost use Rattle.cn_floor.specs.Lane.{empty_lane};
ghost use Rattle.cn_floor.specs.Steps.{StoodInState};
ghost use Rattle.cn_floor.specs.Views.{after_join, after_look, after_split, split_off};

use super::lane::{Lane, make_way};
use super::{Floor, yard_for};
use crate::fault::{JoinFault, SplitFault};
use crate::view::Grant;

/// Adds grants at the end of a list that has room for them.
fn append(to: &mut Vec<Grant>, from: &[Grant])
    requires { vec_len to.old + length from.now ≤ vec_capacity to.old }
    ensures items { to.new.items ≡ to.old.items ++ from.now }
    ensures capacity { vec_capacity to.new ≡ vec_capacity to.old }
{
    for grant in from {
        to.push_reserved(*grant);
    }
}

impl<'a> Floor<'a> {
    /// Splits off a lane with some of the quota; the lane keeps all else. Each of both lanes then looks once. It takes
    /// no memory.
    ///
    /// # Errors
    /// `QuotaTooSmall`. Then nothing has changed.
    pub fn split_off(&self, lane: &mut Lane, quota: u64) -> Result<Lane, SplitFault>
        requires own { lane.old.home ≡ self.now }
        ensures first { OnOk result (lane.new
            ≡ record lane.old { view = after_look (after_split quota lane.old.view) }) }
        ensures second { IfOk result (λ other. other
            ≡ record (empty_lane lane.old.home quota) { view = after_look (split_off quota lane.old.view) }) }
        ensures own { IfOk result (λ other. (lane.new.home ≡ self.now) × (other.home ≡ self.now)) }
        ensures in_states { IfOk result (λ other. StoodInState self.now.start lane.new.view
            × StoodInState self.now.start other.view) }
        ensures enough { OnOk result (quota ≤ lane.old.view.quota) }
        ensures err { OnErr result (lane.new ≡ lane.old) }
        ensures small { IsErrOf result SplitFault.QuotaTooSmall ↔ (lane.old.view.quota < quota) }
        ensures memory { ¬ (IsErrOf result SplitFault.Memory) }
    {
        let post = self.split_post(&mut lane.post, quota)?;
        let yard = yard_for(self.alloc, self.network());
        Ok(Lane {
            post,
            yard,
            grants: Vec::new(self.alloc),
            room: 0,
        })
    }

    /// Splits off a lane as [`Floor::split_off`] does, and gives both.
    ///
    /// # Errors
    /// `QuotaTooSmall`, with the lane.
    pub fn split(&self, mut lane: Lane, quota: u64) -> Result<(Lane, Lane), (SplitFault, Lane)>
        requires own { lane.home ≡ self.now }
        ensures first { IfOk result (λ r. r.0
            ≡ record lane { view = after_look (after_split quota lane.view) }) }
        ensures second { IfOk result (λ r. r.1
            ≡ record (empty_lane lane.home quota) { view = after_look (split_off quota lane.view) }) }
        ensures own { IfOk result (λ r. (r.0.home ≡ self.now) × (r.1.home ≡ self.now)) }
        ensures in_states { IfOk result (λ r. StoodInState self.now.start r.0.view
            × StoodInState self.now.start r.1.view) }
        ensures enough { IfOk result (λ r. quota ≤ lane.view.quota) }
        ensures err { IfErr result (λ r. r.1 ≡ lane) }
        ensures small { IfErr result (λ r. (r.0 ≡ SplitFault.QuotaTooSmall)
            ↔ (lane.view.quota < quota)) }
    {
        match self.split_off(&mut lane, quota) {
            Ok(other) => Ok((lane, other)),
            Err(fault) => Err((fault, lane)),
        }
    }

    /// Takes the second lane into the first: its grants come after the first's. If the first has room for them it takes
    /// no memory, and its room for grants falls by their number.
    ///
    /// # Errors
    /// The first that stands, with both lanes: `StillWalking` (the second has tokens), `Memory` (the first has no room
    /// for the second's grants, and gets no memory).
    pub fn join(&self, mut lane: Lane, other: Lane) -> Result<Lane, (JoinFault, Lane, Lane)>
        requires own { (lane.home ≡ self.now) × (other.home ≡ self.now) }
        ensures ok { IfOk result (λ r. r ≡ record lane {
          view = after_look (after_join lane.view other.view);
          room = lane.room - length other.view.grants;
        }) }
        ensures in_state { IfOk result (λ r. StoodInState self.now.start r.view) }
        ensures out { IfOk result (λ r. tokens_in other.yard.lists ≡ 0) }
        ensures err { IfErr result (λ r. (r.1 ≡ lane) × (r.2 ≡ other)) }
        ensures walking { IfErr result (λ r. (r.0 ≡ JoinFault.StillWalking)
            ↔ (0 < tokens_in other.yard.lists)) }
        ensures room { IfErr result (λ r. (r.0 ≡ JoinFault.Memory)
            → lane.room < length other.view.grants) }
    {
        if other.inside() > 0 {
            return Err((JoinFault::StillWalking, lane, other));
        }
        match self.take_in(&mut lane, other) {
            Ok(()) => Ok(lane),
            Err(other) => Err((JoinFault::Memory, lane, other)),
        }
    }

    /// Takes a lane with no token into another.
    ///
    /// # Errors
    /// The lane, if the other has no room for its grants, and gets no memory.
    fn take_in(&self, lane: &mut Lane, other: Lane) -> Result<(), Lane>
        requires own { (lane.old.home ≡ self.now) × (other.home ≡ self.now) }
        requires out { tokens_in other.yard.lists ≡ 0 }
        ensures ok { OnOk result (lane.new ≡ record lane.old {
          view = after_look (after_join lane.old.view other.view);
          room = lane.old.room - length other.view.grants;
        }) }
        ensures in_state { OnOk result (StoodInState self.now.start lane.new.view) }
        ensures err { OnErr result (lane.new ≡ lane.old) }
        ensures back { IfErr result (λ back. back ≡ other) }
        ensures room { OnErr result (lane.old.room < length other.view.grants) }
    {
        other.lane_laws();
        let more = other.grants().len() as u64;
        let Ok(()) = make_way(&mut lane.grants, more, &lane.yard, lane.room) else {
            return Err(other);
        };
        let (post, grants) = other.into_parts();
        self.join_post(&mut lane.post, post);
        lane.room = lane.room.saturating_sub(more);
        append(&mut lane.grants, grants.as_slice());
        Ok(())
    }
}
