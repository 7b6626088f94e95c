//! Rows of places that are made and read. Of what was seen of a row only this file makes a value, by its load or its
//! exchange, and nothing copies one.

ghost use Rattle.std.specs.Arc.{arc_value};
ghost use Rattle.std.specs.Prelude.{◌≡◌, ◌<◌, IfErr, IfOk, length};
ghost use Rattle.cn_handles.specs.Looking.{IsNoRow};
ghost use Rattle.cn_handles.specs.Placing.{IsPlaceOf, IsSharedRowOf, row_size};

use crate::places::FloorWithPlaces;
use crate::places::place::{Place, Spot};
use crate::places::row::{Counts, Row, SharedRow, parts};
use cn_floor::Floor;
use counted_slot::{Counted, FREE, MOST_READERS, ONE_READER, PRESENT, TAKEN};
use std::sync::atomic::Ordering::SeqCst;

/// Space for a row of places, and how many of these are in which state. Nobody writes a row that is made (`PRESENT`).
#[derive(Drop)]
pub(crate) struct RowSlot {
    pub(crate) row: Counted<Option<SharedRow>>,
    pub(crate) counts: Counts,
}

/// How often is looked again because another thread read a row then: for centuries.
const MOST_LOOKS: u64 = u64::MAX;

/// A row that was read.
#[derive(Drop)]
pub(crate) struct ReadRow {
    at: usize,
    shared: SharedRow,
}

/// Why a row was not read: its word, after so many looks, or that it has too many owners.
#[derive(Drop)]
pub(crate) struct Unread {
    at: usize,
    word: u64,
    looks: u64,
    full: bool,
}

impl ReadRow {
    /// The row.
    pub(crate) fn row(&self) -> &Row
        ensures { result.now ≡ arc_value self.now.shared.row }
    {
        &self.shared.row
    }

    /// The number of the row, with that of a place there.
    pub(crate) fn spot(&self, place: usize) -> Spot
        ensures { result ≡ record { row = self.now.at; place = place } }
    {
        let row = self.at;
        Spot { row, place }
    }

    /// One of its places, for its taker.
    pub(crate) fn into_place(self, floor: &Floor<'static>, place: usize) -> Place
        requires row { IsSharedRowOf floor.now self.shared × (self.at < 26) }
        requires place { place < length (arc_value self.shared.row).places.items }
        ensures { IsPlaceOf floor.now result }
    {
        // Only the contract reads it: whose lanes stand there.
        let _ = floor;
        let ReadRow { at: row, shared } = self;
        Place::of(shared, Spot { row, place })
    }
}

/// Reads a row: a compare-exchange counts a reader more, until the row has an owner more. No thread that is stopped
/// keeps another from it.
///
/// # Errors
/// If it was not made, or cannot be read.
pub(crate) fn read_row(floor: &FloorWithPlaces, at: usize) -> Result<ReadRow, Unread>
    requires { at < 26 }
    ensures ok { IfOk result (λ row. (row.at ≡ at) × IsSharedRowOf floor.now row.shared) }
    ensures err { IfErr result (IsNoRow at) }
{
    let slot = floor.slot(at);
    let mut seen = Unread {
        at,
        word: slot.row.load(),
        looks: 0,
        full: false,
    };
    for looks in 0..MOST_LOOKS {
        if seen.full || seen.word % 4 != PRESENT || seen.word / ONE_READER >= MOST_READERS {
            return Err(seen);
        }
        let (found, claim) = slot.row.turn(seen.word, seen.word + ONE_READER);
        if found == seen.word {
            let shared = match claim.get() {
                Some(shared) => shared.another_owner().ok(),
                None => None,
            };
            claim.leave();
            match shared {
                Some(shared) => return Ok(ReadRow { at, shared }),
                None => seen.full = true,
            }
        } else {
            claim.done();
        }
        seen.looks = looks + 1;
        seen.word = found;
    }
    Err(seen)
}

/// Makes a row, unless another thread made it.
pub(crate) fn make_row(floor: &FloorWithPlaces, at: usize, shared: SharedRow)
    requires at { at < 26 }
    requires row { IsSharedRowOf floor.now shared }
    requires size { length (arc_value shared.row).places.items ≡ row_size at }
{
    let slot = floor.slot(at);
    let (found, claim) = slot.row.turn(FREE, TAKEN);
    if found == FREE {
        // They are counted before anyone can claim one.
        let free = parts(shared.row.places.len());
        slot.counts.of(FREE).fetch_add(free, SeqCst);
        let _ = claim.put(Some(shared), PRESENT);
    } else {
        claim.done();
    }
}
