//! A taker with its share of its floor.

ghost use Rattle.std.specs.Prelude.{◌≡◌, ◌≤◌, length, Some, IfErr, IfOk, OnErr, OnOk};
ghost use Rattle.cn_floor.specs.Steps.{IsAnswer, StoodInState};
ghost use Rattle.cn_lists.specs.Taking.{AreTaken, IsTaken};
ghost use Rattle.cn_floor.specs.Views.{after_entered};
ghost use Rattle.cn_handles.specs.Taking.{IsFirst, IsSplitOff, LieBy, NotTaken, share_of};

use crate::handles::refusal::Refusal;
use cn_floor::{Floor, Words};
use cn_lists::{Taker, open_for_takers, split_off_taker, take, take_many, takes_begun};
use cn_spec::limits::MOST_TAKEN;
use cn_tables::Counting;
use std::alloc::Global;
use std::marker::Model;
use std::sync::Arc;

/// How many names a taker gets at most that is split off one with more than [`KEPT`]. A quarter of a floor's names goes
/// in 1,048,576 such shares.
pub const SHARE: u64 = 1_099_511_627_776;

/// How many names a taker gets at most that is split off one with no more than [`KEPT`].
pub const SMALL_SHARE: u64 = 1_048_576;

/// How many names go in small shares: three quarters of a floor's, for a thousand splits a second in a hundred years.
pub const KEPT: u64 = 3_458_764_513_820_540_928;

/// A taker with its share of its floor, which takers own together. To contracts it is the taker.
#[derive(Drop)]
pub struct HeldTaker {
    floor: Arc<Floor<'static>, Global>,
    taker: Taker,
}

impl Model for HeldTaker {
    ghost use Rattle.cn_lists.specs.Taking.{TakerValue};
    ghost use Rattle.cn_handles.specs.InsideHeldTaker.{IsHeldTaker};

    ghost Value = { TakerValue };

    ghost view = { λ h. h.taker };

    ghost invariant = { IsHeldTaker };
}

impl HeldTaker {
    /// The first taker of a floor over a network, whose words lie side by side (0) or apart, with all names.
    ///
    /// # Errors
    /// `Memory`.
    pub(crate) fn open(alloc: Global, network: Counting, apart: u32) -> Result<HeldTaker, Refusal>
        ensures first { IfOk result (λ t. IsFirst t × (t.home.start.network ≡ network)) }
        ensures spaced { IfOk result (LieBy apart) }
        ensures memory { IfErr result (λ r. r ≡ Refusal.Memory) }
    {
        let network = Arc::new(alloc, network)?;
        let words = Words::zero_shared(alloc, &network)?;
        let opened = if apart == 0 {
            open_for_takers(alloc, words, MOST_TAKEN)
        } else {
            open_for_takers(alloc, words.apart(), MOST_TAKEN)
        };
        let Ok((floor, taker)) = opened else {
            return Err(Refusal::Memory);
        };
        let floor = Arc::new(alloc, floor)?;
        Ok(HeldTaker { floor, taker })
    }

    /// How many names another taker gets that is split off: half of those that are left, up to a share.
    pub(crate) fn quota_for_another(&self) -> u64
        ensures { result ≡ share_of self.now.view.quota }
    {
        let quota = self.taker.quota();
        if quota <= KEPT {
            SMALL_SHARE.min(quota / 2)
        } else {
            SHARE.min(quota / 2)
        }
    }

    /// Splits off a taker with so many names.
    ///
    /// # Errors
    /// `Memory`. Then nothing has changed.
    pub(crate) fn split(&mut self, quota: u64) -> Result<HeldTaker, Refusal>
        requires { quota ≤ self.old.view.quota }
        ensures ok { IfOk result (λ other. IsSplitOff self.old self.new other quota) }
        ensures err { OnErr result (self.new ≡ self.old) }
        ensures memory { IfErr result (λ r. r ≡ Refusal.Memory) }
    {
        let floor = Arc::try_clone(&self.floor)?;
        match split_off_taker(&floor, &mut self.taker, quota) {
            Ok(taker) => Ok(HeldTaker { floor, taker }),
            Err(_) => unreachable!(),
        }
    }

    /// Takes a name.
    ///
    /// # Errors
    /// The first that stands: `NoSuchEntry`, `QuotaSpent`. Then nothing has changed.
    pub fn take(&mut self, entry: u64) -> Result<u64, Refusal>
        ensures ok { IfOk result (λ name. IsTaken self.old self.new entry name) }
        ensures err { OnErr result (self.new ≡ self.old) }
        ensures refused { IfErr result (NotTaken (Some self.old) entry 1) }
    {
        Ok(take(&self.floor, &mut self.taker, entry)?)
    }

    /// Takes a name for each place of a list.
    ///
    /// # Errors
    /// The first that stands: `NoSuchEntry`, `QuotaSpent`. Then nothing has changed.
    pub(crate) fn take_many(&mut self, entry: u64, names: &mut [u64]) -> Result<(), Refusal>
        ensures ok { OnOk result (AreTaken self.old self.new names.old entry names.new) }
        ensures err { OnErr result ((self.new ≡ self.old) × (names.new ≡ names.old)) }
        ensures refused { IfErr result (NotTaken (Some self.old) entry (length names.old)) }
    {
        Ok(take_many(&self.floor, &mut self.taker, entry, names)?)
    }

    /// How many clients came in, by all takers, as far as this one can see.
    pub fn entered(&mut self) -> u64
        ensures answer { IsAnswer self.old.home.start self.old.view result }
        ensures taker { self.new
            ≡ record self.old { view = after_entered self.old.home.start result self.old.view } }
        ensures in_state { StoodInState self.old.home.start self.new.view }
    {
        takes_begun(&self.floor, &mut self.taker)
    }
}
