//! A handle as C sees it: a pointer, which is null if the handle is none.

ghost use Rattle.std.specs.Prelude.{◌≡◌, Option, None, Some, IfErr, IfOk, MatchOption, OnErr, OnOk};
ghost use Rattle.std.specs.Borrow.{sem};
ghost use Rattle.std.specs.Coded.{coded_option};
ghost use Rattle.cn_handles.specs.Holding.{holds, the_row};

use crate::handles::box_pointer::BoxPointer;
use crate::handles::held::Held;
use crate::handles::held_lane::HeldLane;
use crate::handles::refusal::Refusal;
use std::alloc::Global;
use std::marker::Model;
use std::mem::replace;
use std::ptr::null_mut;

/// A lane or a closed floor, or none.
#[repr(C)]
pub struct Handle {
    at: *mut u8,
    alloc: Global,
    pub ghost held: { Option the_row.Denot } by { coded_option the_row.coded },
}

impl Model for Handle {
    ghost also_owns = { λ h. holds the_row h.alloc h.at h.held };
}

impl Handle {
    ghost use Rattle.cn_handles.specs.Handles.{lane_in};
    ghost use Rattle.cn_handles.specs.Lends.{LendsHeld};
    ghost use Rattle.cn_handles.specs.Refusals.{NotThere};
    ghost use Rattle.cn_handles.specs.declared.handles.held.Held.TheVariants.{Lane};

    /// A handle that has nothing.
    fn none(alloc: Global) -> Handle
        ensures { result.held ≡ None }
    {
        Handle {
            at: null_mut(),
            alloc,
        }
    }

    /// A handle that has what is in this box.
    fn of(value: BoxPointer<Held, Global>) -> Handle
        ensures { result.held ≡ Some value.value }
    {
        let BoxPointer { at, alloc } = value;
        Handle {
            at: at as *mut u8,
            alloc,
        }
    }

    /// The box of what it has, as its pointer.
    fn into_pointer(self) -> Option<BoxPointer<Held, Global>>
        ensures { MatchOption result (self.held ≡ None) (λ b. self.held ≡ Some b.value) }
    {
        let Handle { at, alloc } = self;
        if at.is_null() {
            None
        } else {
            Some(BoxPointer {
                at: at as *mut Held,
                alloc,
            })
        }
    }

    /// The box of what it has.
    fn into_box(self) -> Option<Box<Held>>
        ensures { MatchOption result (self.held ≡ None) (λ b. self.held ≡ Some b.value) }
    {
        Some(self.into_pointer()?.into_box())
    }

    /// What is there, to be used where it is.
    pub fn get_mut(&mut self) -> Option<&mut Held>
        ensures* writes_back { sem 𝓛 (LendsHeld self.entry result) }
        ensures there { MatchOption result (self.old.held ≡ None) (λ held. self.old.held ≡ Some held.now) }
    {
        let at = self.at as *mut Held;
        unsafe { if at.is_null() { None } else { Some(&mut *at) } }
    }

    /// Leaves none, and lets go what was there.
    pub fn clear(&mut self, alloc: Global)
        ensures { self.new.held ≡ None }
    {
        *self = Handle::none(alloc);
    }

    /// Takes the lane that is there, and its box, and leaves none.
    ///
    /// # Errors
    /// `Nothing` if there is none. Then nothing has changed.
    pub(crate) fn take_lane(&mut self, alloc: Global) -> Result<(HeldLane, Box<Held>), Refusal>
        ensures left { OnOk result (self.new.held ≡ None) }
        ensures taken { IfOk result (λ r. self.old.held ≡ Some (Lane r.0)) }
        ensures err { OnErr result (self.new.held ≡ self.old.held) }
        ensures refused { IfErr result (NotThere (lane_in self.old.held)) }
    {
        let held = replace(self, Handle::none(alloc)).into_box();
        let mut boxed = held.ok_or(Refusal::Nothing)?;
        match replace(boxed.as_mut(), Held::Nothing) {
            Held::Lane(lane) => Ok((lane, boxed)),
            other => {
                *boxed = other;
                self.put(boxed);
                Err(Refusal::Nothing)
            }
        }
    }

    /// Puts a lane there, in this box.
    pub(crate) fn put_lane(&mut self, lane: HeldLane, mut boxed: Box<Held>)
        ensures { self.new.held ≡ Some (Lane lane) }
    {
        *boxed = Held::Lane(lane);
        self.put(boxed);
    }

    /// Puts something there.
    pub fn put(&mut self, held: Box<Held>)
        ensures { self.new.held ≡ Some held.value }
    {
        *self = Handle::of(BoxPointer::of(held));
    }
}

impl Drop for Handle {
    /// Hands a lane back if it can, so that its floor can be closed without it.
    fn drop(self) {
        if let Some(mut boxed) = self.into_box() {
            match replace(boxed.as_mut(), Held::Nothing) {
                Held::Lane(lane) => drop(lane.hand_back(boxed)),
                other => drop(other),
            }
        }
    }
}

unsafe impl Send for Handle {}
