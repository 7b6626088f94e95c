//! Places for lanes that are handed back: each lane has one of its own from its split on.

ghost use Rattle.std.specs.Arc.{arc_value};
ghost use Rattle.std.specs.Prelude.{◌≡◌, IsSomeAnd};
ghost use Rattle.cn_handles.specs.Handles.{back_held};
ghost use Rattle.cn_handles.specs.Returns.{IsBack};

use crate::handles::box_pointer::BoxPointer;
use crate::places::kept::Kept;
use crate::places::row::{Row, SharedRow};
use cn_floor::Floor;
use counted_slot::Fits;
use std::alloc::Global;

/// A lane that was handed back, in the box of its handle. It stands there as a pointer, of which a `&` shows nothing,
/// since places are shared by threads, and a lane is not.
pub(crate) struct PlaceBox {
    boxed: BoxPointer<Kept, Global>,
}

impl PlaceBox {
    /// The lane that is in this box.
    pub(crate) fn of(boxed: Box<Kept>) -> PlaceBox
        ensures { result.boxed.value ≡ boxed.value }
    {
        let boxed = BoxPointer::of(boxed);
        PlaceBox { boxed }
    }

    /// The box again.
    pub(crate) fn into_boxed(self) -> Box<Kept>
        ensures { result.value ≡ self.boxed.value }
    {
        let PlaceBox { boxed } = self;
        boxed.into_box()
    }
}

impl Drop for PlaceBox {
    fn drop(self) {
        drop(self.into_boxed());
    }
}

impl Fits for PlaceBox {
    type Tag = Floor<'static>;

    ghost fits = { λ floor r. IsSomeAnd (back_held r.boxed.value) (IsBack floor) };
}

/// The number of a row, and of a place there.
#[derive(Clone, Copy)]
pub(crate) struct Spot {
    pub(crate) row: usize,
    pub(crate) place: usize,
}

/// A lane's own place. It is put to use, or freed, or goes with its floor, and nothing else lets it go.
pub(crate) struct Place {
    shared: SharedRow,
    spot: Spot,
}

impl Place {
    /// The place here, of this row.
    pub(crate) fn of(shared: SharedRow, spot: Spot) -> Place
        ensures { (result.shared ≡ shared) × (result.spot ≡ spot) }
    {
        Place { shared, spot }
    }

    /// Where it is.
    pub(crate) fn spot(&self) -> Spot
        ensures { result ≡ self.now.spot }
    {
        self.spot
    }

    /// Its row.
    pub(crate) fn row(&self) -> &Row
        ensures { result.now ≡ arc_value self.now.shared.row }
    {
        &self.shared.row
    }

    /// Lets it go: with its floor, or once it is put to use or freed.
    pub(crate) fn go_with_floor(self) {
        let Place {
            shared: _shared,
            spot: _spot,
        } = self;
    }
}
