//! A lane closes its floor.

ghost use Rattle.std.specs.Prelude.{◌≡◌, ◌≢◌, ◌+◌, Some, false, length, IfErr, IfOk, IsTrue};
ghost use Rattle.cn_handles.specs.Calls.{IsClosedBy};
ghost use Rattle.cn_handles.specs.Closing.{StopsClose, refusal_of_close};
ghost use Rattle.cn_handles.specs.Refusals.{NotClosed};

use super::HeldLane;
use crate::handles::floor_record::FloorRecord;
use crate::places::{CloseStop, close_share, floor_of, record_lists};
use std::alloc::Global;

impl HeldLane {
    /// Whether the lane has all of the floor's quota, spent or not.
    fn has_all(&self) -> bool
        ensures all { IsTrue result
            → self.now.view.quota + length self.now.view.grants ≡ self.now.home.start.quota }
        ensures missing { result ≡ false
            → self.now.view.quota + length self.now.view.grants ≢ self.now.home.start.quota }
    {
        let granted = self.lane.grants().len() as u64;
        granted <= self.most && self.lane.quota() == self.most - granted
    }

    /// Closes the floor.
    ///
    /// # Errors
    /// The first that stands, with the lane as it was: `StillWalking`, `LanesMissing`, `Memory`, `LanesThere`.
    pub(crate) fn close(self, alloc: Global) -> Result<FloorRecord, (CloseStop, HeldLane)>
        ensures ok { IfOk result (IsClosedBy self) }
        ensures err { IfErr result (λ r. r.1 ≡ self) }
        ensures stop { IfErr result (λ r. StopsClose (Some self) r.0) }
        ensures refused { IfErr result (λ r. NotClosed (Some self) (refusal_of_close r.0)) }
    {
        if self.lane.inside() != 0 {
            return Err((CloseStop::StillWalking, self));
        }
        if !self.has_all() {
            return Err((CloseStop::LanesMissing, self));
        }
        let width = floor_of(&self.floor).network().width() as usize;
        match record_lists(alloc, width, self.lane.grants().len()) {
            Ok(lists) => {
                let HeldLane {
                    mut floor,
                    lane,
                    most,
                    place,
                } = self;
                match close_share(&mut floor, lane, lists) {
                    Ok((quiet, lists)) => {
                        place.go_with_floor();
                        quiet.quiet_laws();
                        Ok(FloorRecord::of(quiet, lists))
                    }
                    Err((stop, lane)) => Err((stop, HeldLane::of(floor, lane, most, place))),
                }
            }
            Err(none) => Err((CloseStop::Memory(none), self)),
        }
    }
}
