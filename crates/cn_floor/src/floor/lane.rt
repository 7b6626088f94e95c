//! A lane: a worker's own part of a floor.

ghost use Rattle.std.specs.Prelude.{◌≡◌, ℕ, ◌+◌, ◌<◌, ◌≤◌, ◌^◌, ◌↔◌, None, Some, [], max, length, vec_capacity, IfSome, IsSome, IsTrue, OnErr, OnOk};
ghost use Rattle.cn_spec.specs.declared.limits.TheConstants.{MOST_NAMED};
ghost use Rattle.cn_floor.specs.Rule.{FitsLanes};
ghost use Rattle.cn_yard.specs.Lists.{IsLowest, IsThere, next_after, first_of, on, standing, times_in, tokens_in};

use super::post::Post;
use crate::view::Grant;
use cn_spec::limits::MOST_TOKENS;
use cn_yard::{Token, Yard};
use std::alloc::AllocError;
use std::marker::Model;

/// A worker's own part of a floor: its tokens, its grants, its quota and its room. A token is the number of a record of
/// its lane: which lane it came from is not kept.
///
/// It has room for grants, of which each client that comes in takes some for its own, and free records: a client inside
/// has one of these, until it leaves. Only [`Lane::reserve`] and [`Lane::reserve_apart`] take memory.
#[derive(Drop)]
pub struct Lane {
    pub(super) post: Post,
    pub(super) yard: Yard,
    pub(super) grants: Vec<Grant>,
    pub(super) room: u64,
}

impl Model for Lane {
    ghost use Rattle.cn_floor.specs.InsideLane.{IsLane, lane_of};
    ghost use Rattle.cn_floor.specs.Lane.{LaneValue};

    ghost Value = { LaneValue };

    ghost view = { lane_of };

    ghost invariant = { IsLane };
}

/// Makes way for so many grants more, beside one for each token inside, unless the room is enough for them.
///
/// # Errors
/// `AllocError` if the room is less, and the list gets no memory.
#[inline]
pub(super) fn make_way(
    grants: &mut Vec<Grant>,
    more: u64,
    yard: &Yard,
    room: u64,
) -> Result<(), AllocError>
    requires room { length grants.old.items + tokens_in yard.now.lists + room ≤ vec_capacity grants.old }
    requires more { more < 2 ^ 62 }
    ensures items { grants.new.items ≡ grants.old.items }
    ensures room { length grants.new.items + tokens_in yard.now.lists + room ≤ vec_capacity grants.new }
    ensures ok { OnOk result (length grants.new.items + tokens_in yard.now.lists + more
        ≤ vec_capacity grants.new) }
    ensures err { OnErr result (room < more) }
{
    if room < more {
        let inside = yard.len() as usize;
        grants.reserve(inside + more as usize)?;
    }
    Ok(())
}

impl Lane {
    ghost use Rattle.cn_floor.specs.Lane.{room_of, with_room, with_rooms};

    /// Its post and its grants.
    pub(super) fn into_parts(self) -> (Post, Vec<Grant>)
        ensures post { (result.0.home ≡ self.home) × (result.0.view ≡ self.view) }
        ensures grants { result.1.items ≡ self.view.grants }
    {
        let Lane { post, grants, .. } = self;
        (post, grants)
    }

    /// What holds of each lane: its yard has the tokens of its view, wire by wire, and it has a wire for each of the
    /// network; its floor began with a quota of at most [`cn_spec::limits::MOST_NAMED`], after at most
    /// [`cn_spec::limits::MOST_CARRIED`] clients; those inside and its quota are at most
    /// [`cn_spec::limits::MOST_NAMED`] together; no token stands there twice, and one that does stands on one wire, for
    /// one client.
    ///
    /// It does nothing: its contract is the law.
    pub fn lane_laws(&self)
        ensures start { self.now.view.start ≡ self.now.home.start }
        ensures tokens { self.now.yard.lists ≡ self.now.view.tokens }
        ensures wires { length self.now.yard.lists ≡ length self.now.home.start.network.table.ends }
        ensures small { FitsLanes self.now.home.start }
        ensures few { tokens_in self.now.yard.lists + self.now.view.quota ≤ MOST_NAMED }
        ensures once { (token : ℕ) → times_in self.now.yard.lists token ≤ 1 }
        ensures there { (token client wire : ℕ)
            → standing self.now.yard.lists token ≡ Some (wire, client)
            → IsThere self.now.yard.lists token client wire }
    {
        self.yard.yard_laws();
        self.post.post_laws();
    }

    /// Makes room for so many clients, at most [`cn_spec::limits::MOST_NAMED`]: as many can come in, and get their
    /// grants, with no further memory. It is [`Lane::reserve_apart`] of as many grants and as many inside.
    ///
    /// # Errors
    /// `AllocError` if there is less room or there are fewer free records, and the rest gets no memory, or if with
    /// those inside they are more than [`MOST_TOKENS`]. Then nothing has changed.
    pub fn reserve(&mut self, clients: u64) -> Result<(), AllocError>
        requires { clients ≤ MOST_NAMED }
        ensures ok { OnOk result (self.new ≡ with_room clients self.old) }
        ensures err { OnErr result (self.new ≡ self.old) }
    {
        self.reserve_apart(clients, clients)
    }

    /// Makes room for so many grants, and free records for so many clients inside at once, at most
    /// [`cn_spec::limits::MOST_NAMED`] of each: as many clients can come in, so many of them at a time, and get their
    /// grants, with no further memory. If it has fewer free records than room for grants, its [`Lane::room`] is the
    /// number of free records: it does not fall while there are enough, and rises when a client leaves.
    ///
    /// # Errors
    /// `AllocError` if there is less room or there are fewer free records, and the rest gets no memory, or if with
    /// those inside the records are more than [`MOST_TOKENS`]. Then nothing has changed.
    pub fn reserve_apart(&mut self, grants: u64, records: u64) -> Result<(), AllocError>
        requires { (grants ≤ MOST_NAMED) × (records ≤ MOST_NAMED) }
        ensures ok { OnOk result (self.new ≡ with_rooms grants records self.old) }
        ensures err { OnErr result (self.new ≡ self.old) }
    {
        let inside = u64::from(self.yard.len());
        if inside + records > u64::from(MOST_TOKENS) {
            return Err(AllocError);
        }
        self.grants.reserve((inside + grants) as usize)?;
        self.yard.reserve(records as u32)?;
        self.room = self.room.max(grants);
        Ok(())
    }

    /// For how many clients it has room: as many can come in, and get their grants, with no further memory.
    pub fn room(&self) -> u64
        ensures { result ≡ room_of self.now }
    {
        self.grant_room().min(self.spare())
    }

    /// For how many clients' grants it has room, beside those of the clients inside: as many can get them with no
    /// further memory.
    pub fn grant_room(&self) -> u64
        ensures { result ≡ self.now.room }
    {
        self.room
    }

    /// How many of its records are free: as many clients can come in, if it has room for their grants, with no further
    /// memory.
    pub fn spare(&self) -> u64
        ensures { result ≡ self.now.yard.spare }
    {
        u64::from(self.yard.spare())
    }

    /// How many clients it may still let in.
    pub fn quota(&self) -> u64
        ensures { result ≡ self.now.view.quota }
    {
        self.post.quota()
    }

    /// How many of its tokens are inside.
    pub fn inside(&self) -> u64
        ensures { result ≡ tokens_in self.now.yard.lists }
    {
        u64::from(self.yard.len())
    }

    /// Its grants, first to last.
    pub fn grants(&self) -> &[Grant]
        ensures { result.now ≡ self.now.view.grants }
    {
        self.grants.as_slice()
    }

    /// The first of its tokens on a wire of the network, if one stands there.
    pub fn first(&self, wire: u32) -> Option<Token>
        requires { wire < length self.now.yard.lists }
        ensures { result ≡ first_of (on self.now.yard.lists wire) }
    {
        self.yard.first(wire)
    }

    /// The token after a live one ([`Lane::is_live`]) on its wire, if it is not the last there.
    pub fn next(&self, token: Token) -> Option<Token>
        requires { IsSome (standing self.now.yard.lists token) }
        ensures { (wire client : ℕ) → standing self.now.yard.lists token ≡ Some (wire, client)
            → result ≡ next_after token (on self.now.yard.lists wire) }
    {
        self.yard.next(token)
    }

    /// The least wire on which one of its tokens stands, if one does.
    pub fn lowest(&self) -> Option<u32>
        ensures some { IfSome result (λ wire. IsLowest self.now.yard.lists wire) }
        ensures none { result ≡ None → (wire : ℕ) → length (on self.now.yard.lists wire) ≡ 0 }
    {
        self.yard.lowest()
    }

    /// The least wire on which one of its tokens stands, if one does. None stands below `from`, which is at most the
    /// number of wires of the network.
    pub fn lowest_from(&self, from: u32) -> Option<u32>
        requires from { from ≤ length self.now.yard.lists }
        requires none { (wire : ℕ) → wire < from → on self.now.yard.lists wire ≡ [] }
        ensures some { IfSome result (λ wire. IsLowest self.now.yard.lists wire) }
        ensures none { result ≡ None → (wire : ℕ) → length (on self.now.yard.lists wire) ≡ 0 }
    {
        self.yard.lowest_from(from)
    }

    /// How many of its tokens stand on a wire of the network.
    pub fn count(&self, wire: u32) -> u32
        requires { wire < length self.now.yard.lists }
        ensures { result ≡ length (on self.now.yard.lists wire) }
    {
        self.yard.count(wire)
    }

    /// The wire of a live token ([`Lane::is_live`]).
    pub fn wire_of(&self, token: Token) -> u32
        requires { IsSome (standing self.now.yard.lists token) }
        ensures { (client : ℕ) × IsThere self.now.yard.lists token client result }
    {
        self.yard.wire_of(token)
    }

    /// The client of a live token ([`Lane::is_live`]).
    pub fn client_of(&self, token: Token) -> u64
        requires { IsSome (standing self.now.yard.lists token) }
        ensures { (wire : ℕ) × IsThere self.now.yard.lists token result wire }
    {
        self.yard.client_of(token)
    }

    /// Whether a token with this number stands in the lane.
    pub fn is_live(&self, token: Token) -> bool
        ensures { IsTrue result ↔ IsSome (standing self.now.yard.lists token) }
    {
        self.yard.is_live(token)
    }
}
