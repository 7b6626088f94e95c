//! What a handle has.

ghost use Rattle.std.specs.Fn.{FnOnceReturnsAtMut};
ghost use Rattle.std.specs.Prelude.{◌≡◌, ◌⊎◌, Err, None, Some, IfErr, IfOk};
ghost use Rattle.cn_handles.specs.Handles.{lane_held, record_held, taker_held};
ghost use Rattle.cn_handles.specs.Refusals.{NotThere};
ghost use Rattle.cn_handles.specs.declared.handles.held.Held.TheVariants.{Lane, Taker};

use crate::handles::floor_record::FloorRecord;
use crate::handles::held_lane::HeldLane;
use crate::handles::held_taker::HeldTaker;
use crate::handles::refusal::Refusal;

/// What a handle has. Lane, record and taker are type parameters: the checker passes no `&mut` with a lifetime in it to
/// a closure.
#[derive(Drop)]
pub enum Held<L = HeldLane, R = FloorRecord, K = HeldTaker> {
    /// Nothing, while a call works on it.
    Nothing,
    /// A lane.
    Lane(L),
    /// A closed floor.
    Closed(R),
    /// A taker.
    Taker(K),
    /// A lane that was handed back, without its share of its floor.
    Back(cn_floor::Lane),
}

impl<L, R, K> Held<L, R, K> {
    /// What a call makes of the lane that is there, and returns.
    ///
    /// # Errors
    /// `Nothing` if there is no lane, with nothing changed, else as the call.
    pub fn with_lane<T, F: FnOnce(&mut L) -> Result<T, Refusal>>(
        &mut self,
        call: F,
    ) -> Result<T, Refusal>
        requires { F.IsAlwaysCallable call }
        ensures { ((lane_held self.old ≡ None) × (self.new ≡ self.old) × (result ≡ Err Refusal.Nothing))
            ⊎ ((l k : L) × (self.old ≡ Lane l) × (self.new ≡ Lane k) × FnOnceReturnsAtMut F.FnOnce call l result k) }
    {
        match self {
            Held::Lane(lane) => call(lane),
            _ => Err(Refusal::Nothing),
        }
    }

    /// What a call makes of the taker that is there, and returns.
    ///
    /// # Errors
    /// `Nothing` if there is no taker, with nothing changed, else as the call.
    pub fn with_taker<T, F: FnOnce(&mut K) -> Result<T, Refusal>>(
        &mut self,
        call: F,
    ) -> Result<T, Refusal>
        requires { F.IsAlwaysCallable call }
        ensures { ((taker_held self.old ≡ None) × (self.new ≡ self.old) × (result ≡ Err Refusal.Nothing))
            ⊎ ((l k : K) × (self.old ≡ Taker l) × (self.new ≡ Taker k) × FnOnceReturnsAtMut F.FnOnce call l result k) }
    {
        match self {
            Held::Taker(taker) => call(taker),
            _ => Err(Refusal::Nothing),
        }
    }

    /// The lane that is there.
    ///
    /// # Errors
    /// `Nothing` if there is none.
    pub(crate) fn lane(&self) -> Result<&L, Refusal>
        ensures ok { IfOk result (λ lane. lane_held self.now ≡ Some lane.now) }
        ensures refused { IfErr result (NotThere (lane_held self.now)) }
    {
        match self {
            Held::Lane(lane) => Ok(lane),
            _ => Err(Refusal::Nothing),
        }
    }

    /// The record of a closed floor that is there.
    ///
    /// # Errors
    /// `Nothing` if there is none.
    pub(crate) fn record(&self) -> Result<&R, Refusal>
        ensures ok { IfOk result (λ closed. record_held self.now ≡ Some closed.now) }
        ensures refused { IfErr result (NotThere (record_held self.now)) }
    {
        match self {
            Held::Closed(record) => Ok(record),
            _ => Err(Refusal::Nothing),
        }
    }
}
