//! The yard.

ghost use Rattle.std.specs.Prelude.{◌≡◌, ℕ, ◌+◌, ◌<◌, ◌≤◌, ◌↔◌, max, None, Some, length, IfOk, OnOk, OnErr, IsOk, IfSome, IsSome, IsTrue, []};
ghost use Rattle.cn_spec.specs.declared.limits.TheConstants.{MOST_TOKENS};
ghost use Rattle.cn_yard.specs.Lists.{Admits, IsLowest, IsThere, Moves, Releases, next_after, empty, first_of, on, standing, times_in, tokens_in};

use crate::lines::{Line, count_on, make_lines};
use crate::marks::least_from;
use crate::moves::{fill, relink};
use crate::records::{Record, set_client};
use crate::token::Token;
use cn_spec::limits::MOST_TOKENS;
use std::alloc::{AllocError, Global};
use std::marker::Model;

/// Per wire a list of tokens from first to last, each with its client, and a number of free records.
///
/// Only [`Yard::reserve`] and [`Yard::admit`] take memory, and the first that makes a record takes that for the wires
/// too. The tokens are records that are linked by their numbers, and the free records stand on a line of their own, so
/// an admit, a move, a release and most looks take a few steps; [`Yard::lowest`] and [`Yard::lowest_from`] look at one
/// bit per wire, 64 at a time, and [`Yard::deal`] moves one token after another.
#[derive(Drop)]
pub struct Yard {
    wires: u32,
    records: Vec<Record>,
    // One per wire, and then that of the free records; none before the first record.
    lines: Vec<Line>,
    // One bit per line: whether a record stands there.
    marks: Vec<u64>,
}

impl Model for Yard {
    ghost use Rattle.cn_yard.specs.Lists.{Yard};
    ghost use Rattle.cn_yard.specs.InsideYard.{IsYard, yard_of};

    ghost Value = { Yard };

    ghost view = { yard_of };

    ghost invariant = { IsYard };
}

impl Yard {
    /// A yard of `wires` wires, numbered from 0, with nobody on them and no record. It takes no memory, and does not
    /// fail.
    pub fn new(alloc: Global, wires: u32) -> Result<Self, AllocError>
        ensures yard { IfOk result (λ yard. yard ≡ empty wires) }
        ensures nobody { IfOk result (λ yard. tokens_in yard.lists ≡ 0) }
        ensures made { IsOk result }
    {
        Ok(Yard {
            wires,
            records: Vec::new(alloc),
            lines: Vec::new(alloc),
            marks: Vec::new(alloc),
        })
    }

    /// Makes free records until there are at least `records`. [`Yard::len`] and `records` together are at most
    /// [`MOST_TOKENS`].
    ///
    /// # Errors
    /// `AllocError` if there are fewer and the others get no memory. Then nothing has changed.
    pub fn reserve(&mut self, records: u32) -> Result<(), AllocError>
        requires { tokens_in self.old.lists + records ≤ MOST_TOKENS }
        ensures lists { self.new.lists ≡ self.old.lists }
        ensures tokens { tokens_in self.new.lists ≡ tokens_in self.old.lists }
        ensures ok { OnOk result (self.new.spare ≡ max records self.old.spare) }
        ensures err { OnErr result (self.new ≡ self.old) }
        ensures enough { records ≤ self.old.spare → IsOk result }
    {
        if records <= self.spare() {
            return Ok(());
        }
        make_lines(&mut self.lines, &mut self.marks, self.wires)?;
        fill(
            &mut self.records,
            &mut self.lines,
            &mut self.marks,
            self.wires,
            records,
        )
    }

    /// What holds of each yard: a token stands there at most once, and one that stands there is on only one wire, for
    /// one client. Each token is the number of a record; the records, live and free, are numbered from 0 and at most
    /// [`MOST_TOKENS`].
    ///
    /// It does nothing: its contract is the law.
    pub fn yard_laws(&self)
        ensures once { (token : ℕ) → times_in self.now.lists token ≤ 1 }
        ensures there { (token client wire : ℕ) → standing self.now.lists token ≡ Some (wire, client)
            → IsThere self.now.lists token client wire }
        ensures numbers { (token : ℕ) → IsSome (standing self.now.lists token)
            → token < tokens_in self.now.lists + self.now.spare }
        ensures few { tokens_in self.now.lists + self.now.spare ≤ MOST_TOKENS }
    {
        // Reads the yard: what it keeps is known of a yard that is read.
        let _wires = self.wires;
    }

    /// A token for a client, last on `wire`, which is below [`Yard::wires`]. It takes a free record if there is one,
    /// and then no memory. [`Yard::len`] is below [`MOST_TOKENS`] before.
    ///
    /// # Errors
    /// `AllocError` if there is no free record and a new one gets no memory. Then nothing has changed.
    pub fn admit(&mut self, client: u64, wire: u32) -> Result<Token, AllocError>
        requires wire { wire < length self.old.lists }
        requires room { tokens_in self.old.lists < MOST_TOKENS }
        ensures ok { IfOk result (λ token. Admits self.old self.new token client wire) }
        ensures err { OnErr result (self.new ≡ self.old) }
        ensures reserved { 0 < self.old.spare → IsOk result }
    {
        self.reserve(1)?;
        let number = self.lines[self.wires as usize].last;
        relink(
            &mut self.records,
            &mut self.lines,
            &mut self.marks,
            number,
            wire,
        );
        set_client(&mut self.records, number, client);
        Ok(Token::of(number))
    }

    /// Takes a token that stands in the yard ([`Yard::is_live`]) out of its place and puts it last on `wire`, which is
    /// below [`Yard::wires`] and may be the one on which it stands.
    pub fn move_to(&mut self, token: Token, wire: u32)
        requires live { IsSome (standing self.old.lists token) }
        requires wire { wire < length self.old.lists }
        ensures { (from client : ℕ) → standing self.old.lists token ≡ Some (from, client)
            → Moves self.old self.new token client wire }
    {
        relink(
            &mut self.records,
            &mut self.lines,
            &mut self.marks,
            token.number(),
            wire,
        );
    }

    /// Takes a token that stands in the yard ([`Yard::is_live`]) off its wire, and gives its client. Its record is free
    /// afterwards.
    pub fn release(&mut self, token: Token) -> u64
        requires { IsSome (standing self.old.lists token) }
        ensures client { (wire : ℕ) × IsThere self.old.lists token result wire }
        ensures released { Releases self.old self.new token }
    {
        let number = token.number();
        let free = self.wires;
        relink(
            &mut self.records,
            &mut self.lines,
            &mut self.marks,
            number,
            free,
        );
        self.records[number as usize].client
    }

    /// The first token on `wire`, which is below [`Yard::wires`], if one stands there.
    pub fn first(&self, wire: u32) -> Option<Token>
        requires { wire < length self.now.lists }
        ensures { result ≡ first_of (on self.now.lists wire) }
    {
        if count_on(&self.lines, wire) == 0 {
            return None;
        }
        Some(Token::of(self.lines[wire as usize].first))
    }

    /// The token after `token`, which stands in the yard, on its wire, if it is not the last there.
    pub fn next(&self, token: Token) -> Option<Token>
        requires { IsSome (standing self.now.lists token) }
        ensures { (wire client : ℕ) → standing self.now.lists token ≡ Some (wire, client)
            → result ≡ next_after token (on self.now.lists wire) }
    {
        let record = self.records[token.number() as usize];
        if self.lines[record.wire as usize].last == token.number() {
            return None;
        }
        Some(Token::of(record.next))
    }

    /// The least wire on which a token stands, if one does.
    pub fn lowest(&self) -> Option<u32>
        ensures some { IfSome result (λ wire. IsLowest self.now.lists wire) }
        ensures none { result ≡ None → (wire : ℕ) → on self.now.lists wire ≡ [] }
    {
        self.lowest_from(0)
    }

    /// The least wire on which a token stands, if one does. None stands below `from`, which is at most [`Yard::wires`].
    /// It is [`Yard::lowest`] for a caller who knows this, and does not look below.
    pub fn lowest_from(&self, from: u32) -> Option<u32>
        requires from { from ≤ length self.now.lists }
        requires none { (wire : ℕ) → wire < from → on self.now.lists wire ≡ [] }
        ensures some { IfSome result (λ wire. IsLowest self.now.lists wire) }
        ensures none { result ≡ None → (wire : ℕ) → on self.now.lists wire ≡ [] }
    {
        if self.lines.is_empty() {
            return None;
        }
        match least_from(&self.marks, from / 64) {
            Some(wire) if wire < self.wires as u64 => Some(wire as u32),
            _ => None,
        }
    }

    /// How many tokens stand on `wire`, which is below [`Yard::wires`].
    pub fn count(&self, wire: u32) -> u32
        requires { wire < length self.now.lists }
        ensures { result ≡ length (on self.now.lists wire) }
    {
        count_on(&self.lines, wire)
    }

    /// How many tokens stand in the yard.
    pub fn len(&self) -> u32
        ensures { result ≡ tokens_in self.now.lists }
    {
        self.records.len() as u32 - self.spare()
    }

    /// Whether no token stands in the yard.
    pub fn is_empty(&self) -> bool
        ensures { IsTrue result ↔ (tokens_in self.now.lists ≡ 0) }
    {
        self.len() == 0
    }

    /// How many records are free: as many tokens can be admitted with no further memory.
    pub fn spare(&self) -> u32
        ensures { result ≡ self.now.spare }
    {
        count_on(&self.lines, self.wires)
    }

    /// How many wires there are.
    pub fn wires(&self) -> u32
        ensures { result ≡ length self.now.lists }
    {
        self.wires
    }

    /// The wire of a token that stands in the yard.
    pub fn wire_of(&self, token: Token) -> u32
        requires { IsSome (standing self.now.lists token) }
        ensures { (client : ℕ) × IsThere self.now.lists token client result }
    {
        self.records[token.number() as usize].wire
    }

    /// The client of a token that stands in the yard.
    pub fn client_of(&self, token: Token) -> u64
        requires { IsSome (standing self.now.lists token) }
        ensures { (wire : ℕ) × IsThere self.now.lists token result wire }
    {
        self.records[token.number() as usize].client
    }

    /// Whether a token stands in the yard.
    pub fn is_live(&self, token: Token) -> bool
        ensures { IsTrue result ↔ IsSome (standing self.now.lists token) }
    {
        let at = token.number() as usize;
        at < self.records.len() && self.records[at].wire < self.wires
    }
}
