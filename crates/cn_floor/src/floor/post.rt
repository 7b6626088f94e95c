//! A post: a seat with its quota, which a lane has, and a taker.

ghost use Rattle.std.specs.Prelude.{◌≡◌, [], length};

use crate::view::View;
use atomic_table::Seat;
use std::marker::Model;

/// What a lane and a taker of `cn_lists` have of a floor: a seat at its table, by which they make their atomic steps,
/// and how many clients they may still let in. Only a floor makes one, and each step that is made by it is counted in
/// its view.
#[derive(Drop)]
pub struct Post {
    pub(super) seat: Seat<(), View>,
    pub(super) quota: u64,
}

impl Model for Post {
    ghost use Rattle.cn_floor.specs.InsidePost.{IsPost, post_of};
    ghost use Rattle.cn_floor.specs.Lane.{PostValue};

    ghost Value = { PostValue };

    ghost view = { post_of };

    ghost invariant = { IsPost };
}

impl Post {
    /// What holds of each post: its view is of its floor, loads nothing, and has a wire for each of the network.
    ///
    /// It does nothing: its contract is the law.
    pub fn post_laws(&self)
        ensures start { self.now.view.start ≡ self.now.home.start }
        ensures idle { self.now.view.loads ≡ [] }
        ensures wires { length self.now.view.tokens ≡ length self.now.home.start.network.table.ends }
    {
        // Opens what each post keeps.
        let _ = &self.seat;
    }

    /// How many clients it may still let in.
    pub fn quota(&self) -> u64
        ensures { result ≡ self.now.view.quota }
    {
        self.quota
    }
}
