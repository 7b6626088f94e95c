//! The caller of the page of cn_exit.

use cn_exit::{Exits, Leave};
use cn_spec::limits::MOST_ARRIVALS;

/// A token leaves by an exit, if there is such an exit and its count has room.
pub fn leave(exits: &mut Exits, exit: u32) -> Option<Leave> {
    if exit < exits.width() && exits.count(exit) < MOST_ARRIVALS {
        Some(exits.take(exit))
    } else {
        None
    }
}
