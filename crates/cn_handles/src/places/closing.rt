//! Closes of floors that lanes own together, and what memory they take. That a floor has other owners, and that there
//! was no memory, only this file says, each time by a call that found it so, and nothing copies it: so a close is
//! refused for these causes only if a function of this file was called.

ghost use Rattle.std.specs.Arc.{arc_value};
ghost use Rattle.std.specs.Prelude.{◌≡◌, ◌+◌, Some, length, IfErr, IfOk};
ghost use Rattle.cn_yard.specs.Lists.{tokens_in};
ghost use Rattle.cn_handles.specs.Closing.{HaveLengths, StopsClose, refusal_of_close};
ghost use Rattle.cn_handles.specs.Refusals.{NotClosed};

use super::{FloorShare, FloorWithPlaces};
use crate::handles::floor_record::RecordLists;
use crate::handles::refusal::Refusal;
use cn_floor::{CloseFault, Lane, Quiet};
use std::alloc::{AllocError, Global};
use std::sync::Arc;

/// A close got no memory.
#[derive(Drop)]
pub(crate) struct NoMemory {
    error: AllocError,
}

/// Lists for the record of a floor of this width, with so many names.
///
/// # Errors
/// `NoMemory` if they get none.
pub(crate) fn record_lists(
    alloc: Global,
    width: usize,
    names: usize,
) -> Result<RecordLists, NoMemory>
    ensures { IfOk result (HaveLengths width names) }
{
    let counts = Vec::from_elem(alloc, 0u64, width);
    let holders = Vec::from_elem(alloc, 0u64, names);
    match (counts, holders) {
        (Ok(counts), Ok(holders)) => Ok(RecordLists { counts, holders }),
        _ => Err(NoMemory { error: AllocError }),
    }
}

/// A floor has other owners.
#[derive(Drop)]
pub(crate) struct OtherOwners {
    lists: RecordLists,
}

/// Why a floor is not closed.
#[derive(Drop)]
pub(crate) enum CloseStop {
    /// There is no lane.
    Nothing,
    /// The lane has clients inside.
    StillWalking,
    /// Other lanes have a part of the floor's quota, spent or not.
    LanesMissing,
    /// The lists of its record got no memory, or the floor.
    Memory(NoMemory),
    /// The lists got memory, and the floor has other owners.
    LanesThere(OtherOwners),
}

impl CloseStop {
    /// The refusal.
    pub(crate) fn refusal(&self) -> Refusal
        ensures { result ≡ refusal_of_close self.now }
    {
        match self {
            CloseStop::Nothing => Refusal::Nothing,
            CloseStop::StillWalking => Refusal::StillWalking,
            CloseStop::LanesMissing => Refusal::LanesMissing,
            CloseStop::Memory(_) => Refusal::Memory,
            CloseStop::LanesThere(_) => Refusal::LanesThere,
        }
    }
}

/// Closes the floor by a lane that has the whole of its quota, spent or not, and nobody inside, and takes it out. Lanes
/// that were handed back have nothing of it, and are let go.
///
/// # Errors
/// `LanesThere` if there are other owners, and `Memory`, with all as it was.
pub(crate) fn close_share(
    share: &mut FloorShare,
    lane: Lane,
    lists: RecordLists,
) -> Result<(Quiet<'static>, RecordLists), (CloseStop, Lane)>
    requires own { arc_value share.old ≡ Some lane.home }
    requires out { tokens_in lane.yard.lists ≡ 0 }
    requires all { lane.view.quota + length lane.view.grants ≡ lane.home.start.quota }
    requires lists { HaveLengths lane.home.start.network.table.width (length lane.view.grants) lists }
    ensures ok { IfOk result (λ r. (r.0.start ≡ lane.home.start) × (r.0.did ≡ lane.view) × (r.1 ≡ lists)) }
    ensures err { IfErr result (λ r. (arc_value share.new ≡ arc_value share.old) × (r.1 ≡ lane)) }
    ensures stop { IfErr result (λ r. StopsClose (Some lane) r.0) }
    ensures refused { IfErr result (λ r. NotClosed (Some lane) (refusal_of_close r.0)) }
{
    let Some(slot) = Arc::get_mut(share) else {
        return Err((CloseStop::LanesThere(OtherOwners { lists }), lane));
    };
    let Some(places) = slot.take() else {
        unreachable!()
    };
    let FloorWithPlaces {
        floor,
        slots,
        returns,
    } = places;
    match floor.close(lane) {
        Ok(quiet) => Ok((quiet, lists)),
        Err(CloseFault::Memory(floor, lane)) => {
            let back = FloorWithPlaces {
                floor,
                slots,
                returns,
            };
            *slot = Some(back);
            Err((CloseStop::Memory(NoMemory { error: AllocError }), lane))
        }
        Err(CloseFault::StillWalking(..)) => unreachable!(),
        Err(CloseFault::LanesMissing { .. }) => unreachable!(),
    }
}
