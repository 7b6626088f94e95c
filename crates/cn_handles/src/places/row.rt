//! A row of places, and how many of them are in which state.

ghost use Rattle.std.specs.Arc.{arc_value};
ghost use Rattle.std.specs.Prelude.{◌≡◌, ◌+◌, ◌/◌, ◌^◌, ◌≤◌, ◌<◌, IfOk, IfSome, length};
ghost use Rattle.cn_handles.specs.Placing.{IsRowOf, IsSharedRowOf};

use crate::places::turns::OnePlace;
use cn_floor::Floor;
use counted_slot::{Counted, FREE, Fits};
use std::alloc::{AllocError, Global};
use std::sync::Arc;
use std::sync::atomic::AtomicU64;
use std::sync::atomic::Ordering::SeqCst;

/// How many places of a group have a lane that is back, and how many are free, and no fewer: a place is counted before
/// it comes into the state, and until it has left it. A group of 64 places, or a row of as many at most, has a bit for
/// each place in place of the number.
#[derive(Drop)]
pub(crate) struct Counts {
    back: AtomicU64,
    free: AtomicU64,
}

impl Counts {
    /// The counts of a group with no place in either state.
    pub(crate) fn new() -> Counts {
        Counts {
            back: AtomicU64::new(0),
            free: AtomicU64::new(0),
        }
    }

    /// The number of those in this state.
    pub(crate) fn of(&self, state: u64) -> &AtomicU64 {
        if state == FREE {
            &self.free
        } else {
            &self.back
        }
    }
}

/// How many sizes groups have, and one.
pub(crate) const LEVELS: u32 = 3;

/// How many places a group has: 64^level.
pub(crate) fn group_size(level: u32) -> usize
    requires { (0 < level) × (level < 3) }
    ensures size { result ≡ 64 ^ level }
    ensures some { (0 < result) × (result ≤ 4096) }
{
    if level == 1 { 64 } else { 4_096 }
}

/// What a place counts in a group of so many: its bit, if they are 64 at most, or one.
fn part(size: usize, at: usize) -> u64 {
    if size <= 64 { 1 << (at % 64) } else { 1 }
}

/// What all places of a row of so many count there.
pub(crate) fn parts(size: usize) -> u64 {
    if size <= 64 {
        u64::MAX >> (64 - size.max(1))
    } else {
        size as u64
    }
}

/// How many places a row has at most.
const MOST_PLACES: usize = 1_099_511_627_776;

/// Places of one floor: 16, or twice, four times, .. as many. A group of 64 has counts, and a group of 64 groups.
#[derive(Drop)]
pub(crate) struct Row {
    pub(crate) places: Vec<OnePlace>,
    groups: Vec<Counts>,
}

impl Row {
    /// Free places for lanes of a floor, so many.
    ///
    /// # Errors
    /// `AllocError` if they get no memory.
    pub(crate) fn new(alloc: Global, floor: &Floor<'static>, size: usize) -> Result<Row, AllocError>
        ensures row { IfOk result (IsRowOf floor.now) }
        ensures size { IfOk result (λ row. length row.places.items ≡ size) }
    {
        if size > MOST_PLACES {
            return Err(AllocError);
        }
        let mut places = Vec::new(alloc);
        for place in 0..size {
            places.push(Counted::new(None, floor))?;
        }
        let mut groups = Vec::new(alloc);
        for group in 0..size / 32 {
            groups.push(Counts::new())?;
        }
        let row = Row { places, groups };
        for at in 0..size {
            row.add(at, FREE);
        }
        Ok(row)
    }

    /// The number of the group of 64^level places to which this place belongs, unless that is the whole row. Groups
    /// stand as a tree does in a list: the whole row would be the first.
    pub(crate) fn group(&self, level: u32, at: usize) -> Option<usize>
        requires level { (0 < level) × (level < 3) }
        requires few { length self.now.places.items ≤ 1099511627776 }
        requires at { at < length self.now.places.items }
        ensures { IfSome result (λ group. (group ≡ (length self.now.places.items + at) / 64 ^ level)
            × (group < length self.now.groups.items)) }
    {
        let group = (self.places.len() + at) / group_size(level);
        (group > 1 && group < self.groups.len()).then_some(group)
    }

    /// What a place counts in the whole row.
    pub(crate) fn part(&self, at: usize) -> u64 {
        part(self.places.len(), at)
    }

    /// The number of places of a group that are in this state.
    pub(crate) fn count(&self, group: usize, state: u64) -> &AtomicU64
        requires { group < length self.now.groups.items }
    {
        self.groups[group].of(state)
    }

    /// How many groups from this one on, within their larger group, have no place in this state; and what they counted.
    pub(crate) fn uncounted(&self, group: usize, state: u64) -> (usize, u64)
        requires { group < length self.now.groups.items }
        ensures { (result.0 ≤ 64) × (result.1 ≡ 0) }
    {
        let (mut groups, mut number) = (0, 0);
        for at in group..self.groups.len().min(group + 64 - group % 64) {
            let counted = self.count(at, state).load(SeqCst);
            if counted != 0 {
                break;
            }
            groups += 1;
            number = counted;
        }
        (groups, number)
    }

    /// Counts a place more in this state.
    pub(crate) fn add(&self, at: usize, state: u64)
        requires few { length self.now.places.items ≤ 1099511627776 }
        requires at { at < length self.now.places.items }
    {
        for level in 1..LEVELS {
            if let Some(group) = self.group(level, at) {
                self.count(group, state)
                    .fetch_add(part(group_size(level), at), SeqCst);
            }
        }
    }

    /// Counts a place less in this state.
    pub(crate) fn subtract(&self, at: usize, state: u64)
        requires few { length self.now.places.items ≤ 1099511627776 }
        requires at { at < length self.now.places.items }
    {
        for level in 1..LEVELS {
            if let Some(group) = self.group(level, at) {
                self.count(group, state)
                    .fetch_sub(part(group_size(level), at), SeqCst);
            }
        }
    }
}

/// A row that lanes share.
#[derive(Drop)]
pub(crate) struct SharedRow {
    pub(crate) row: Arc<Row, Global>,
}

impl Fits for SharedRow {
    type Tag = Floor<'static>;

    ghost fits = { λ floor shared. IsSharedRowOf floor shared };
}

impl SharedRow {
    /// The same row.
    ///
    /// # Errors
    /// `AllocError` if it has too many owners.
    pub(crate) fn another_owner(&self) -> Result<SharedRow, AllocError>
        ensures { IfOk result (λ other. arc_value other.row ≡ arc_value self.now.row) }
    {
        let row = Arc::try_clone(&self.row)?;
        Ok(SharedRow { row })
    }
}
