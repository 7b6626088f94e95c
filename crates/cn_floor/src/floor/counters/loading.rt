//! Loads of the shared words: by one lane, and by two at one moment.

ghost use Rattle.std.specs.Prelude.{◌≡◌, ◌<◌, [], length};
ghost use Rattle.cn_floor.specs.Plays.{Loads, Looks};
ghost use Rattle.cn_floor.specs.Steps.{IsAnswer, StoodInState};
ghost use Rattle.cn_floor.specs.Together.{HaveDistinctNames, StoodAsOne, both_of, cut_first, cut_second, first_after, second_after};
ghost use Rattle.cn_floor.specs.Views.{after_entered, after_look, base};

use super::super::plays::{CutInTwo, LoadOf, LoadPlay, LookPlay, PairOf, TakeTogether};
use super::{Counters, place_of};
use crate::view::View;
use atomic_table::Seat;
use std::marker::Brand;

impl Counters {
    /// Looks once, in one atomic step: a load of the lanes' word, which nobody changes. It shows a state in which the
    /// lane has its view.
    pub(in crate::floor) fn look<T: LoadOf>(&self, seat: &mut Seat<(), View>)
        requires own { seat.old.table_id ≡ self.now.table }
        requires hears { T.start ≡ self.now.start }
        requires slots { seat.old.me.1 ≡ [] }
        ensures seat { (seat.new.table_id ≡ seat.old.table_id) × (seat.new.me.1 ≡ []) }
        ensures looks { Looks self.now.start seat.old.me.0 seat.new.me.0 }
    {
        self.table.shared.load::<LookPlay<T>>(seat, 0);
    }

    /// Loads the next entry's word, in one atomic step.
    fn load_next<T: LoadOf>(&self, seat: &mut Seat<(), View>, entry: u32) -> u64
        requires own { seat.old.table_id ≡ self.now.table }
        requires hears { T.start ≡ self.now.start }
        requires slots { seat.old.me.1 ≡ [] }
        requires next { length seat.old.me.0.loads ≡ entry }
        requires entry { entry < self.now.start.network.table.entries }
        ensures seat { (seat.new.table_id ≡ seat.old.table_id) × (seat.new.me.1 ≡ []) }
        ensures loads { Loads T.start seat.old.me.0 result seat.new.me.0 }
    {
        self.table
            .shared
            .load::<LoadPlay<T>>(seat, place_of(self.stride, 1 + entry as usize))
    }

    /// Loads the word of each entry once, in order: how many clients came in since the floor began, before which
    /// `came_before` had come.
    pub(in crate::floor) fn load_all(&self, seat: &mut Seat<(), View>, came_before: u64) -> u64
        requires own { seat.old.table_id ≡ self.now.table }
        requires slots { (seat.old.me.1 ≡ []) × (seat.old.me.0.loads ≡ []) }
        requires before { came_before ≡ base self.now.start }
        ensures seat { (seat.new.table_id ≡ seat.old.table_id) × (seat.new.me.1 ≡ []) }
        ensures view { seat.new.me.0 ≡ after_entered self.now.start result seat.old.me.0 }
        ensures answer { IsAnswer self.now.start seat.old.me.0 result }
        ensures in_state { StoodInState self.now.start seat.new.me.0 }
    {
        let mut total = 0;
        for entry in 0..self.entries {
            total += self.load_next::<Brand>(seat, entry);
        }
        total - came_before
    }

    /// Looks at both seats at one moment, for which the second's view is taken to the first's, and loads the word of
    /// each entry then: how many clients came in. Gives the second back.
    pub(in crate::floor) fn look_at_both<T: PairOf>(
        &self,
        seat: &mut Seat<(), View>,
        mut other: Seat<(), View>,
        came_before: u64,
    ) -> (Seat<(), View>, u64)
        requires own { (seat.old.table_id ≡ self.now.table) × (other.table_id ≡ self.now.table) }
        requires start { (seat.old.me.0.start ≡ self.now.start) × (other.me.0.start ≡ self.now.start) }
        requires slots { (seat.old.me.1 ≡ []) × (seat.old.me.0.loads ≡ []) × (other.me.1 ≡ [])
            × (other.me.0.loads ≡ []) }
        requires wires { length other.me.0.tokens ≡ length seat.old.me.0.tokens }
        requires before { came_before ≡ base self.now.start }
        requires pair { (T.pair.first ≡ after_look seat.old.me.0) × (T.pair.second ≡ after_look other.me.0) }
        ensures first { (seat.new.table_id ≡ seat.old.table_id)
            × (seat.new.me ≡ (first_after self.now.start result.1 seat.old.me.0, [])) }
        ensures second { (result.0.table_id ≡ seat.old.table_id)
            × (result.0.me ≡ (second_after result.1 other.me.0, [])) }
        ensures distinct { HaveDistinctNames seat.old.me.0 other.me.0 }
        ensures answer { IsAnswer self.now.start seat.old.me.0 result.1
            × IsAnswer self.now.start other.me.0 result.1 }
        ensures in_state { StoodAsOne self.now.start seat.old.me.0 other.me.0 result.1 }
    {
        self.look::<Brand>(seat);
        self.look::<Brand>(&mut other);
        self.table.shared.join_seat::<TakeTogether>(seat, other);
        let entered = self.load_all(seat, came_before);
        let other = self.cut_in_two::<T>(seat, entered);
        (other, entered)
    }

    /// Cuts a view in the two of which it was made, once it has an answer of how many came in. The answer is only for
    /// the proof.
    fn cut_in_two<T: PairOf>(&self, seat: &mut Seat<(), View>, _entered: u64) -> Seat<(), View>
        requires own { seat.old.table_id ≡ self.now.table }
        requires slots { seat.old.me.1 ≡ [] }
        requires pair { seat.old.me.0
            ≡ after_entered self.now.start _entered (both_of T.pair.first T.pair.second) }
        requires wires { length T.pair.second.tokens ≡ length T.pair.first.tokens }
        requires idle { (T.pair.first.loads ≡ []) × (T.pair.second.loads ≡ []) }
        requires first { StoodInState self.now.start T.pair.first }
        requires second { StoodInState self.now.start T.pair.second }
        ensures first { (seat.new.table_id ≡ seat.old.table_id)
            × (seat.new.me ≡ (cut_first T.pair seat.old.me.0, [])) }
        ensures second { (result.table_id ≡ seat.old.table_id)
            × (result.me ≡ (cut_second T.pair seat.old.me.0, [])) }
    {
        self.table.shared.split_seat::<CutInTwo<T>>(seat)
    }
}
