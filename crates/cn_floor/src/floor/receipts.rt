//! Which floors were closed.

ghost use Rattle.std.specs.Mem.Slots.{slots_items};
ghost use Rattle.std.specs.Prelude.{◌≡◌, All, [], ◌∷◌, ◌++◌};
ghost use Rattle.cn_floor.specs.Receipts.{WasClosed, floor_by};

use super::lane::Lane;
use atomic_table::Closed;
use std::alloc::Global;
use std::marker::Model;
use std::snapshot::Snapshot;

/// Which floors were closed, one after another: what each began with, what its lanes did, and the words at its end. It
/// has no bytes.
///
/// Only [`super::ClosedFloor::receipt`] puts a floor in, which it takes, and nothing copies receipts. So a function
/// that must return those of a run cannot be proved unless as many floors were walked on and closed.
#[derive(Drop)]
pub struct Receipts {
    floors: Snapshot<Floors>,
}

/// The floors, as they were put in. No value of it lasts.
#[derive(Drop)]
pub(super) enum Floors {
    /// None.
    None,
    /// A closed floor, by its lane, its table, and how far apart neighbours lie in that.
    One(Snapshot<Snapshot<Lane>>, Snapshot<Closed<(), Global>>, Snapshot<usize>),
    /// Some, and then others.
    Both(Snapshot<Floors>, Snapshot<Floors>),
}

impl Model for Receipts {
    ghost use Rattle.std.specs.Prelude.{List};
    ghost use Rattle.cn_floor.specs.Ends.{QuietValue};

    ghost Value = { List QuietValue };

    ghost use Rattle.cn_floor.specs.InsideReceipts.{KeepsReceipts, receipts_of};

    ghost view = { receipts_of };

    ghost invariant = { KeepsReceipts };
}

impl Receipts {
    /// What holds of each floor.
    ///
    /// It does nothing: its contract is the law.
    pub fn receipts_laws(&self)
        ensures { All WasClosed self.now }
    {
        // Opens what receipts keep.
        let _ = &self.floors;
    }

    /// Of no floor.
    pub fn none() -> Receipts
        ensures { result ≡ [] }
    {
        Receipts {
            floors: Snapshot::of(&Floors::None),
        }
    }

    /// Of the closed floor that has this lane, and this table, in which neighbours lie so far apart.
    pub(super) fn of_one(
        lane: &Snapshot<Lane>,
        table: &Closed<(), Global>,
        stride: &usize,
    ) -> Receipts
        requires { WasClosed (floor_by lane.now.value (slots_items table.now.words) stride.now) }
        ensures { result ≡ floor_by lane.now.value (slots_items table.now.words) stride.now ∷ [] }
    {
        let one = Floors::One(
            Snapshot::of(lane),
            Snapshot::of(table),
            Snapshot::of(stride),
        );
        Receipts {
            floors: Snapshot::of(&one),
        }
    }

    /// These, and then others.
    pub fn append(self, others: Receipts) -> Receipts
        ensures { result ≡ self ++ others }
    {
        let Receipts { floors: first } = self;
        let Receipts { floors: second } = others;
        Receipts {
            floors: Snapshot::of(&Floors::Both(first, second)),
        }
    }
}
