//! A box as its pointer.

ghost use Rattle.std.specs.Prelude.{◌≡◌};
ghost use Rattle.std.specs.Box.Ownership.{box_owns};

use std::alloc::Allocator;
use std::marker::Model;

/// A box that stands as its pointer and its allocator. To contracts it is also the value in it.
pub(crate) struct BoxPointer<T, A: Allocator> {
    pub(crate) at: *mut T,
    pub(crate) alloc: A,
    pub(crate) ghost value: { T },
}

impl<T, A: Allocator> Model for BoxPointer<T, A> {
    ghost also_owns = { λ l. box_owns (A.dealloc_token l.alloc) T.row l.at l.value };
}

impl<T: Drop, A: Allocator> BoxPointer<T, A> {
    /// The pointer of this box.
    pub(crate) fn of(value: Box<T, A>) -> BoxPointer<T, A>
        ensures { result.value ≡ value.value }
    {
        let (at, alloc) = Box::into_raw_with_allocator(value);
        BoxPointer { at, alloc }
    }

    /// The box again.
    pub(crate) fn into_box(self) -> Box<T, A>
        ensures { result.value ≡ self.value }
    {
        let BoxPointer { at, alloc } = self;
        unsafe { Box::from_raw(alloc, at) }
    }
}

unsafe impl<T: Send, A: Allocator + Send> Send for BoxPointer<T, A> {}

unsafe impl<T: Send, A: Allocator + Send> Sync for BoxPointer<T, A> {}
