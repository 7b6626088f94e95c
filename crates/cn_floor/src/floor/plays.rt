//! The rule of a floor, and the kinds of atomic steps that lanes make.

use crate::view::{Opening, View};
use atomic_table::{Join, Play, Split, TableRule};
use std::marker::{Brand, PhantomData};

/// The rule of a floor.
pub struct FloorRule;

impl TableRule<(), View, Opening> for FloorRule {
    ghost use Rattle.cn_floor.specs.Rule.{HoldsAt, start_of};
    ghost use Rattle.cn_floor.specs.Spread.{HoldsSpread};
    ghost use Rattle.cn_floor.specs.Views.{empty_view};

    ghost holds = { λ key s. HoldsSpread key.stride (HoldsAt (start_of key)) s };

    ghost first = { λ key. empty_view (start_of key) key.quota };
}

/// Who comes in.
pub trait EnterOf {
    ghost use Rattle.cn_floor.specs.Plays.{Coming};

    ghost coming: { Coming };
}

impl EnterOf for Brand {
    ghost use Rattle.cn_floor.specs.Plays.{nobody_comes};

    ghost coming = { nobody_comes };
}

/// A step by which a client comes in.
pub struct EnterPlay<T> {
    of: PhantomData<T>,
}

impl<T: EnterOf> Play<(), View> for EnterPlay<T> {
    ghost use Rattle.std.specs.Prelude.{◌≡◌, []};
    ghost use Rattle.cn_floor.specs.Plays.{ComesIn};

    ghost then = { λ _ me n new. (new.1 ≡ []) × ComesIn T.coming me.0 new.0 };
}

/// Who of a list come in together.
pub trait EnterAllOf {
    ghost use Rattle.cn_floor.specs.EntersAll.{EnteringAll};

    ghost entering: { EnteringAll };
}

impl EnterAllOf for Brand {
    ghost use Rattle.cn_floor.specs.EntersAll.{nobody_enters};

    ghost entering = { nobody_enters };
}

/// A step by which the clients of a list come in by one entry.
pub struct EnterAllPlay<T> {
    of: PhantomData<T>,
}

impl<T: EnterAllOf> Play<(), View> for EnterAllPlay<T> {
    ghost use Rattle.std.specs.Prelude.{◌≡◌, []};
    ghost use Rattle.cn_floor.specs.EntersAll.{AllComeIn};

    ghost then = { λ _ me n new. (new.1 ≡ []) × AllComeIn T.entering me.0 new.0 };
}

/// Who goes on.
pub trait StepOf {
    ghost use Rattle.cn_floor.specs.Plays.{Going};

    ghost going: { Going };
}

impl StepOf for Brand {
    ghost use Rattle.cn_floor.specs.Plays.{nobody_goes};

    ghost going = { nobody_goes };
}

/// A step by which a token goes by the end of its wire.
pub struct StepPlay<T> {
    of: PhantomData<T>,
}

impl<T: StepOf> Play<(), View> for StepPlay<T> {
    ghost use Rattle.std.specs.Prelude.{◌≡◌, []};
    ghost use Rattle.cn_floor.specs.Plays.{GoesOn};

    ghost then = { λ _ me n new. (new.1 ≡ []) × GoesOn T.going me.0 n new.0 };
}

/// Which wire's tokens go on.
pub trait SweepOf {
    ghost use Rattle.cn_floor.specs.Sweeps.{Sweeping};

    ghost sweeping: { Sweeping };
}

impl SweepOf for Brand {
    ghost use Rattle.cn_floor.specs.Sweeps.{nobody_sweeps};

    ghost sweeping = { nobody_sweeps };
}

/// A step by which all tokens of a wire go by its end.
pub struct SweepPlay<T> {
    of: PhantomData<T>,
}

impl<T: SweepOf> Play<(), View> for SweepPlay<T> {
    ghost use Rattle.std.specs.Prelude.{◌≡◌, []};
    ghost use Rattle.cn_floor.specs.Sweeps.{AllGoOn};

    ghost then = { λ _ me n new. (new.1 ≡ []) × AllGoOn T.sweeping me.0 n new.0 };
}

/// Of which floor a load or a look is.
pub trait LoadOf {
    ghost use Rattle.cn_floor.specs.declared.view.Start.{Start};

    ghost start: { Start };
}

impl LoadOf for Brand {
    ghost use Rattle.cn_floor.specs.Views.{no_start};

    ghost start = { no_start };
}

/// A load of the next entry's word.
pub struct LoadPlay<T> {
    of: PhantomData<T>,
}

impl<T: LoadOf> Play<(), View> for LoadPlay<T> {
    ghost use Rattle.std.specs.Prelude.{◌≡◌, []};
    ghost use Rattle.cn_floor.specs.Plays.{Loads};

    ghost then = { λ _ me n new. (new.1 ≡ []) × Loads T.start me.0 n new.0 };
}

/// How much quota is split off.
pub trait Portion {
    ghost use Rattle.std.specs.Prelude.{ℕ};

    ghost quota: { ℕ };
}

impl Portion for Brand {
    ghost quota = { 0 };
}

/// A view is cut in two.
pub struct SplitSeat<T> {
    of: PhantomData<T>,
}

impl<T: Portion> Split<View> for SplitSeat<T> {
    ghost use Rattle.cn_floor.specs.Views.{after_split, split_off};

    ghost left = { λ v. after_split T.quota v };

    ghost right = { λ v. split_off T.quota v };
}

/// Two views become one.
pub struct JoinSeats;

impl Join<View> for JoinSeats {
    ghost use Rattle.cn_floor.specs.Views.{after_join, nobody};

    ghost both = { after_join };

    ghost spent = { nobody };
}

/// Two views become one, wire by wire.
pub struct TakeTogether;

impl Join<View> for TakeTogether {
    ghost use Rattle.cn_floor.specs.Together.{both_of};
    ghost use Rattle.cn_floor.specs.Views.{nobody};

    ghost both = { both_of };

    ghost spent = { nobody };
}

/// Of which two views one was made.
pub trait PairOf {
    ghost use Rattle.cn_floor.specs.Together.{Pair};

    ghost pair: { Pair };
}

impl PairOf for Brand {
    ghost use Rattle.cn_floor.specs.Together.{no_pair};

    ghost pair = { no_pair };
}

/// One view becomes the two of which it was made.
pub struct CutInTwo<T> {
    of: PhantomData<T>,
}

impl<T: PairOf> Split<View> for CutInTwo<T> {
    ghost use Rattle.cn_floor.specs.Together.{cut_first, cut_second};

    ghost left = { cut_first T.pair };

    ghost right = { cut_second T.pair };
}

/// A look at the lanes' word, which shows a state in which the lane has its view.
pub struct LookPlay<T> {
    of: PhantomData<T>,
}

impl<T: LoadOf> Play<(), View> for LookPlay<T> {
    ghost use Rattle.std.specs.Prelude.{◌≡◌, []};
    ghost use Rattle.cn_floor.specs.Plays.{Looks};

    ghost then = { λ step me n new. (step.word ≡ 0) × (new.1 ≡ []) × Looks T.start me.0 new.0 };
}
