//! What a search saw of places. Only this file makes a value of it, by a load or out of others, and nothing copies one:
//! so what has to return a search in vain is not proved unless it looks at each place, or at its bit or a count of it.

ghost use Rattle.std.specs.Arc.{arc_value};
ghost use Rattle.std.specs.Prelude.{◌≡◌, ◌+◌, ◌^◌, ◌<◌, ◌≤◌, IfErr, IfOk, IfSome, length};
ghost use Rattle.cn_handles.specs.Looking.{Grows, IsEmptyGroup, IsEmptyRow, IsNewSearch, IsNoRow, IsNoneBack, IsWhole};
ghost use Rattle.cn_handles.specs.Placing.{IsNotIn};

use crate::places::place::Spot;
use crate::places::reading_rows::{ReadRow, Unread};
use crate::places::row::{Counts, Row, group_size};
use crate::places::turns::PlaceFault;
use crate::places::{FloorWithPlaces, ROWS};
use std::sync::atomic::Ordering::SeqCst;

/// How many searches are in vain at most because lanes were handed back meanwhile: for centuries.
pub(crate) const MOST_SEARCHES: u64 = u64::MAX;

/// How many lanes one call takes in at most: for centuries.
pub(crate) const MOST_JOINS: u64 = u64::MAX;

/// How many places of rows, one after another, were counted in a state: none.
#[derive(Drop)]
pub(crate) struct EmptyRow {
    row: usize,
    rows: usize,
    state: u64,
    number: u64,
}

/// How many places of groups, one after another, were counted in a state: none.
#[derive(Drop)]
pub(crate) struct EmptyGroup {
    first: Spot,
    size: usize,
    state: u64,
    number: u64,
}

impl EmptyRow {
    /// The rows from this one on, as far as none was counted there: of a row that was not made, none was.
    pub(crate) fn of(floor: &FloorWithPlaces, row: usize, state: u64) -> Option<EmptyRow>
        requires { row ≤ 26 }
        ensures { IfSome result (IsEmptyRow row state) }
    {
        let (mut rows, mut number) = (0, 0);
        for at in row..ROWS {
            let counted = floor.slot(at).counts.of(state).load(SeqCst);
            if counted != 0 {
                break;
            }
            rows += 1;
            number = counted;
        }
        let empty = EmptyRow {
            row,
            rows,
            state,
            number,
        };
        if rows == 0 { None } else { Some(empty) }
    }
}

impl EmptyGroup {
    /// The places from this one on, as far as no group is counted and no bit is there, in a row with these counts.
    pub(crate) fn of(
        read: &ReadRow,
        counts: &Counts,
        first: usize,
        state: u64,
    ) -> Option<EmptyGroup>
        requires few { length (arc_value read.now.shared.row).places.items ≤ 1099511627776 }
        requires first { first < length (arc_value read.now.shared.row).places.items }
        ensures { IfSome result (IsEmptyGroup (record { row = read.now.at; place = first }) state) }
    {
        let row = read.row();
        let none = EmptyGroup {
            first: read.spot(first),
            size: 0,
            state,
            number: 0,
        };
        let all = none
            .with_groups(row, 2)
            .with_groups(row, 1)
            .with_bits(row, counts);
        if all.size == 0 { None } else { Some(all) }
    }

    /// The same with the groups of 64^level places that follow, within their larger group, as far as none is counted.
    fn with_groups(self, row: &Row, level: u32) -> EmptyGroup
        requires level { (0 < level) × (level < 3) }
        requires few { length row.now.places.items ≤ 1099511627776 }
        requires none { (self.number ≡ 0) × (self.first.place + self.size < 2 ^ 62) }
        ensures { Grows 1073741824 self result }
    {
        let (at, size) = (self.first.place + self.size, group_size(level));
        if at % size != 0 || at >= row.places.len() {
            return self;
        }
        let Some(group) = row.group(level, at) else {
            return self;
        };
        let (groups, number) = row.uncounted(group, self.state);
        EmptyGroup {
            size: self.size + groups * size,
            number,
            ..self
        }
    }

    /// The same with the places that follow in a group of 64, or in a row with these counts that is no larger, as far
    /// as they have no bit.
    fn with_bits(self, row: &Row, counts: &Counts) -> EmptyGroup
        requires few { length row.now.places.items ≤ 1099511627776 }
        requires none { (self.number ≡ 0) × (self.first.place + self.size < 2 ^ 62) }
        ensures { Grows 64 self result }
    {
        let at = self.first.place + self.size;
        if at >= row.places.len() {
            return self;
        }
        let word = match row.group(1, at) {
            Some(group) => row.count(group, self.state),
            None => counts.of(self.state),
        };
        let bits = word.load(SeqCst) >> (at % 64);
        let size = (bits.trailing_zeros() as usize).min(64 - at % 64);
        let number = if size == 0 { 0 } else { bits << (64 - size) };
        if number != 0 {
            return self;
        }
        EmptyGroup {
            size: self.size + size,
            number,
            ..self
        }
    }
}

/// A search for places in a state, through all rows.
#[derive(Drop)]
pub(crate) struct Search {
    state: u64,
    /// Where it goes on, and how many places it found.
    on: Spot,
    found: u64,
    /// How many hand-backs had ended when it began.
    returns: u64,
    /// How many searches in vain went before it.
    earlier: u64,
}

/// Why no lane is taken.
#[derive(Drop)]
pub(crate) enum NoneBack {
    /// None was found by a search, and as many hand-backs had ended after it as before.
    Searched(Search, u64),
    /// So many searches were in vain as take centuries, and during each of them a hand-back ended.
    Late(Search),
}

impl Search {
    /// One that begins at the first place of all.
    pub(crate) fn new(state: u64, floor: &FloorWithPlaces) -> Search
        ensures { IsNewSearch state 0 result }
    {
        Search {
            state,
            on: Spot { row: 0, place: 0 },
            found: 0,
            returns: floor.returns().load(SeqCst),
            earlier: 0,
        }
    }

    /// For what state.
    pub(crate) fn state(&self) -> u64
        ensures { result ≡ self.now.state }
    {
        self.state
    }

    /// Where it goes on.
    pub(crate) fn on(&self) -> Spot
        ensures { result ≡ self.now.on }
    {
        self.on
    }

    /// Passes a place that was not in the state.
    pub(crate) fn pass(mut self, none: PlaceFault) -> Search
        requires none { IsNotIn self.on self.state none }
        requires few { self.on.place + 1 < 2 ^ 64 }
        ensures { result ≡ record self { on = record { row = self.on.row; place = self.on.place + 1 } } }
    {
        drop(none);
        self.on.place += 1;
        self
    }

    /// Passes a place that it found, and whose state is changed.
    pub(crate) fn pass_found(mut self) -> Search
        requires few { (self.on.place + 1 < 2 ^ 64) × (self.found < MOST_JOINS) }
        ensures { result ≡ record self {
          on = record { row = self.on.row; place = self.on.place + 1 };
          found = self.found + 1;
        } }
    {
        self.found += 1;
        self.on.place += 1;
        self
    }

    /// Passes a group of places.
    pub(crate) fn pass_group(mut self, none: EmptyGroup) -> Search
        requires none { IsEmptyGroup self.on self.state none }
        requires few { self.on.place + none.size < 2 ^ 64 }
        ensures { result ≡ record self { on = record { row = self.on.row; place = self.on.place + none.size } } }
    {
        self.on.place += none.size;
        self
    }

    /// Passes rows.
    pub(crate) fn pass_rows(mut self, none: EmptyRow) -> Search
        requires { IsEmptyRow self.on.row self.state none }
        ensures { result ≡ record self { on = record { row = self.on.row + none.rows; place = 0 } } }
    {
        self.on.row += none.rows;
        self.on.place = 0;
        self
    }

    /// Passes a row that cannot be read.
    pub(crate) fn pass_unread(mut self, none: Unread) -> Search
        requires none { IsNoRow self.on.row none }
        requires few { self.on.row + 1 < 2 ^ 64 }
        ensures { result ≡ record self { on = record { row = self.on.row + 1; place = 0 } } }
    {
        drop(none);
        self.on.row += 1;
        self.on.place = 0;
        self
    }

    /// Ends a row of which it passed all places.
    pub(crate) fn end_row(mut self, row: ReadRow) -> Search
        requires row { row.at ≡ self.on.row }
        requires all { length (arc_value row.shared.row).places.items ≤ self.on.place }
        requires few { self.on.row + 1 < 2 ^ 64 }
        ensures { result ≡ record self { on = record { row = self.on.row + 1; place = 0 } } }
    {
        drop(row);
        self.on.row += 1;
        self.on.place = 0;
        self
    }

    /// Ends a search in vain: no lane was back at this moment, if no hand-back ended since it began.
    ///
    /// # Errors
    /// Else one that begins anew.
    pub(crate) fn end(self, floor: &FloorWithPlaces) -> Result<NoneBack, Search>
        requires whole { IsWhole self × (self.found ≡ 0) }
        requires few { self.earlier < MOST_SEARCHES }
        ensures none { IfOk result IsNoneBack }
        ensures again { IfErr result (IsNewSearch self.state (self.earlier + 1)) }
    {
        let now = floor.returns().load(SeqCst);
        if now == self.returns {
            return Ok(NoneBack::Searched(self, now));
        }
        Err(Search {
            on: Spot { row: 0, place: 0 },
            returns: now,
            earlier: self.earlier + 1,
            ..self
        })
    }
}
