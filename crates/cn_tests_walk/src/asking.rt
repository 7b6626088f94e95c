//! How often each worker of an epoch asks.

use cn_floor::{Gate, Moment};
use std::alloc::Global;
use std::sync::Wait;
use std::sync::atomic::{AtomicU64, Ordering};

/// How often a worker asks, before each kind of step.
#[derive(Drop)]
struct Asked {
    enters: AtomicU64,
    passes: AtomicU64,
    leaves: AtomicU64,
}

impl Asked {
    fn before(&self, moment: Moment) -> &AtomicU64 {
        match moment {
            Moment::Enter => &self.enters,
            Moment::Pass => &self.passes,
            Moment::Leave => &self.leaves,
        }
    }

    /// Enters, passes and leaves.
    fn read(&self) -> [u64; 3] {
        [
            self.enters.load(Ordering::SeqCst),
            self.passes.load(Ordering::SeqCst),
            self.leaves.load(Ordering::SeqCst),
        ]
    }
}

/// Counts how often each worker asks.
#[derive(Drop)]
pub(crate) struct Tally {
    asked: Vec<Asked>,
}

impl Gate for Tally {
    fn before<R: Wait>(&self, _rt: &R, worker: u32, moment: Moment) {
        if let Some(asked) = self.asked.get(worker as usize) {
            asked.before(moment).fetch_add(1, Ordering::SeqCst);
        }
    }
}

pub(crate) fn new_tally(alloc: Global) -> Option<Tally> {
    let mut asked = Vec::new(alloc);
    for _ in 0..64 {
        let none = Asked {
            enters: AtomicU64::new(0),
            passes: AtomicU64::new(0),
            leaves: AtomicU64::new(0),
        };
        asked.push(none).ok()?;
    }
    Some(Tally { asked })
}

/// A worker, and how often it asks before enters, passes and leaves.
pub(crate) type Often = (usize, [u64; 3]);

/// Whether a worker that is among these asked so often, and any other not at all.
fn has_asked(worker: usize, asked: &Asked, often: &[Often]) -> bool {
    let wanted = match often.iter().find(|row| row.0 == worker) {
        Some(row) => row.1,
        None => [0, 0, 0],
    };
    asked.read() == wanted
}

/// The first worker that did not ask so.
pub(crate) fn wrong_asker(tally: &Tally, often: &[Often]) -> Option<usize> {
    for (worker, asked) in tally.asked.iter().enumerate() {
        if !has_asked(worker, asked, often) {
            return Some(worker);
        }
    }
    None
}
