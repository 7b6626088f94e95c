//! The box of a handle whose lane was handed back. A place keeps it. Who takes the lane in frees it, and who takes it
//! whole has its handle there: so a hand-back frees nothing, and that takes nothing.

ghost use Rattle.std.specs.Prelude.{◌≡◌};
ghost use Rattle.cn_handles.specs.declared.handles.held.Held.TheVariants.{Nothing};

use crate::handles::box_pointer::BoxPointer;
use crate::handles::held::Held;
use crate::places::place::Spot;
use cn_floor::Lane;
use std::alloc::Global;
use std::sync::Arc;

/// What lies in memory as a `HeldLane` does, but shares no floor and no row of places, since these cannot own
/// themselves. None is ever made.
#[derive(Drop)]
pub(crate) struct LaneLayout {
    floor: Arc<u8, Global>,
    lane: Lane,
    most: u64,
    place: ((Arc<u8, Global>,), Spot),
}

/// What the box of a handle may have once its lane was handed back.
pub(crate) type Kept = Held<LaneLayout>;

/// The same box, by the other type. The two lie alike in memory, which the proof finds by the fields of both.
fn retype(loose: BoxPointer<Held, Global>) -> BoxPointer<Kept, Global>
    requires { loose.value ≡ Nothing }
    ensures { result.value ≡ Nothing }
{
    let BoxPointer { at, alloc } = loose;
    BoxPointer {
        at: at as *mut Kept,
        alloc,
    }
}

/// The same box, by the first type again.
fn restore(loose: BoxPointer<Kept, Global>) -> BoxPointer<Held, Global>
    requires { loose.value ≡ Nothing }
    ensures { result.value ≡ Nothing }
{
    let BoxPointer { at, alloc } = loose;
    BoxPointer {
        at: at as *mut Held,
        alloc,
    }
}

/// The box of a place, for a handle.
pub(crate) fn unkeep(mut boxed: Box<Kept>) -> Box<Held> {
    *boxed = Held::Nothing;
    restore(BoxPointer::of(boxed)).into_box()
}

/// The box of a handle, for a place.
pub(crate) fn keep(mut boxed: Box<Held>) -> Box<Kept> {
    *boxed = Held::Nothing;
    retype(BoxPointer::of(boxed)).into_box()
}
