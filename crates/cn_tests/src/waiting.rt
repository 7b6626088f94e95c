//! Workers that wait for others, in gates.

use std::sync::atomic::{AtomicU64, Ordering};
use std::thread;

/// Whether a count comes to a number within 100,000,000 turns. In each turn other threads may run. So it comes to it on
/// a busy machine too, unless the worker that counts does not run beside the one that waits.
pub(crate) fn comes_to(count: &AtomicU64, number: u64) -> bool {
    for _ in 0..100_000_000u64 {
        if count.load(Ordering::SeqCst) >= number {
            return true;
        }
        thread::yield_now();
    }
    false
}
