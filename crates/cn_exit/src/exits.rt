//! The counts of the exits of one network.

ghost use Rattle.std.specs.Prelude.{◌≡◌, ◌+◌, ◌<◌, ◌≤◌, IfOk, length, replicate, slice_index, slice_set};
ghost use Rattle.cn_spec.specs.Step as step;

use crate::names::name_of;
use cn_spec::limits::{MOST_ARRIVALS, MOST_ENDS};
use std::alloc::{AllocError, Global};
use std::marker::Model;

/// The exits of a network, 1 to [`MOST_ENDS`] of them, numbered from 0, with how many tokens have left by each: at most
/// [`MOST_ARRIVALS`].
///
/// Aspnes, Herlihy, Shavit 1994, section 2.
#[derive(Debug, Drop)]
pub struct Exits {
    counts: Vec<u64>,
}

/// A token's leave by an exit.
#[derive(Clone, Copy, Debug, PartialEq, Eq)]
pub struct Leave {
    /// Which visit of the exit it is, counted from 0.
    pub visit: u64,
    /// The name that the exit gives out at it.
    pub name: u64,
}

impl Model for Exits {
    ghost use Rattle.std.specs.Prelude.{List, ℕ};
    ghost use Rattle.cn_exit.specs.InsideExits.{IsExitCounts};

    ghost Value = { List ℕ };

    ghost view = { λ exits. exits.counts.items };

    ghost invariant = { λ exits. IsExitCounts exits.counts.items };
}

impl Exits {
    /// `width` exits, from 1 to [`MOST_ENDS`], by which nobody has left.
    ///
    /// # Errors
    /// `AllocError` if the counts get no memory.
    pub fn new(alloc: Global, width: u32) -> Result<Self, AllocError>
        requires some { 1 ≤ width }
        requires few { width ≤ MOST_ENDS }
        ensures { IfOk result (λ exits. exits ≡ replicate width 0) }
    {
        Ok(Exits {
            counts: vec![in alloc; 0; width as usize]?,
        })
    }

    /// A token leaves by `exit`, which is below [`Exits::width`], and gets its name ([`name_of`]). Fewer than
    /// [`MOST_ARRIVALS`] tokens have left there before ([`Exits::count`]). It takes no memory.
    ///
    /// Aspnes, Herlihy, Shavit 1994, section 2.
    pub fn take(&mut self, exit: u32) -> Leave
        requires exit { exit < length self.old }
        requires room { slice_index self.old exit < MOST_ARRIVALS }
        ensures visit { result.visit ≡ slice_index self.old exit }
        ensures name { result.name ≡ step.name_of (length self.old) exit result.visit }
        ensures counted { self.new ≡ slice_set self.old exit (result.visit + 1) }
    {
        let at = exit as usize;
        let visit = self.counts[at];
        self.counts[at] = visit + 1;
        Leave {
            visit,
            name: name_of(self.width(), exit, visit),
        }
    }

    /// How many tokens have left by `exit`, which is below [`Exits::width`].
    pub fn count(&self, exit: u32) -> u64
        requires { exit < length self.now }
        ensures value { result ≡ slice_index self.now exit }
        ensures limit { result ≤ MOST_ARRIVALS }
    {
        self.counts[exit as usize]
    }

    /// How many exits there are, from 1 to [`MOST_ENDS`].
    pub fn width(&self) -> u32
        ensures value { result ≡ length self.now }
        ensures some { 1 ≤ result }
        ensures few { result ≤ MOST_ENDS }
    {
        self.counts.len() as u32
    }

    /// Forgets all leaves: nobody has left by any exit, as at the start of an epoch. It takes no memory.
    pub fn clear(&mut self)
        ensures { self.new ≡ replicate (length self.old) 0 }
    {
        self.counts.fill(0);
    }
}
