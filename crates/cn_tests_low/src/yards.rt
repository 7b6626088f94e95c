//! The yard.

use cn_spec::limits::MOST_TOKENS;
use cn_yard::{Token, Yard};
use std::alloc::Global;

/// A yard whose calls answer nothing if they may not be made.
#[derive(Drop)]
struct Guarded {
    yard: Yard,
}

impl Guarded {
    fn reserve(&mut self, records: u32) -> Option<()> {
        if self.yard.len() <= 1_000_000 && records <= 1_000_000 {
            self.yard.reserve(records).ok()
        } else {
            None
        }
    }

    fn admit(&mut self, client: u64, wire: u32) -> Option<Token> {
        if wire < self.yard.wires() && self.yard.len() < MOST_TOKENS {
            self.yard.admit(client, wire).ok()
        } else {
            None
        }
    }

    fn move_to(&mut self, token: Token, wire: u32) -> Option<()> {
        if wire < self.yard.wires() && self.yard.is_live(token) {
            self.yard.move_to(token, wire);
            Some(())
        } else {
            None
        }
    }

    fn deal(&mut self, wire: u32, output: u32, outs: [u32; 2]) -> Option<()> {
        let [out0, out1] = outs;
        let wires = self.yard.wires();
        let are_wires = wire < wires && out0 < wires && out1 < wires;
        let are_distinct = wire != out0 && wire != out1 && out0 != out1;
        if are_wires && are_distinct && output < 2 {
            self.yard.deal(wire, output, out0, out1);
            Some(())
        } else {
            None
        }
    }

    fn release(&mut self, token: Token) -> Option<u64> {
        if self.yard.is_live(token) {
            Some(self.yard.release(token))
        } else {
            None
        }
    }

    fn first(&self, wire: u32) -> Option<Token> {
        if wire < self.yard.wires() {
            self.yard.first(wire)
        } else {
            None
        }
    }

    fn next(&self, token: Token) -> Option<Token> {
        if self.yard.is_live(token) {
            self.yard.next(token)
        } else {
            None
        }
    }

    fn count(&self, wire: u32) -> Option<u32> {
        if wire < self.yard.wires() {
            Some(self.yard.count(wire))
        } else {
            None
        }
    }

    fn place(&self, token: Token) -> Option<(u32, u64)> {
        if self.yard.is_live(token) {
            Some((self.yard.wire_of(token), self.yard.client_of(token)))
        } else {
            None
        }
    }

    fn client(&self, token: Option<Token>) -> Option<u64> {
        let (_, client) = self.place(token?)?;
        Some(client)
    }

    /// The first three clients on a wire.
    fn row(&self, wire: u32) -> Row {
        let first = self.first(wire);
        let second = match first {
            Some(token) => self.next(token),
            None => None,
        };
        let third = match second {
            Some(token) => self.next(token),
            None => None,
        };
        [self.client(first), self.client(second), self.client(third)]
    }

    /// The rows of the first two wires, and the number of free records.
    fn pair(&self) -> Pair {
        ([self.row(0), self.row(1)], self.yard.spare())
    }

    /// The rows of the three wires, and the numbers of tokens and of free records.
    fn stand(&self) -> Stand {
        (
            [self.row(0), self.row(1), self.row(2)],
            self.yard.lowest(),
            (self.yard.len(), self.yard.spare(), self.yard.is_empty()),
        )
    }
}

type Row = [Option<u64>; 3];

type Stand = ([Row; 3], Option<u32>, (u32, u32, bool));

type Pair = ([Row; 2], u32);

fn yard_of(alloc: Global, wires: u32) -> Option<Guarded> {
    let yard = Yard::new(alloc, wires).ok()?;
    Some(Guarded { yard })
}

/// The yard after each move of the row.
fn stands(alloc: Global) -> Option<[Stand; 6]> {
    let mut yard = yard_of(alloc, 3)?;
    yard.reserve(2)?;
    let empty = yard.stand();
    let t = yard.admit(7, 0)?;
    let u = yard.admit(8, 0)?;
    let both = yard.stand();
    yard.move_to(t, 0)?;
    let turned = yard.stand();
    yard.move_to(u, 2)?;
    let moved = yard.stand();
    yard.release(t);
    let left = yard.stand();
    yard.admit(9, 1)?;
    yard.admit(10, 1)?;
    Some([empty, both, turned, moved, left, yard.stand()])
}

const NOBODY: Row = [None, None, None];

const EIGHT: Row = [Some(8), None, None];

const STANDS: [Stand; 6] = [
    ([NOBODY, NOBODY, NOBODY], None, (0, 2, true)),
    (
        [[Some(7), Some(8), None], NOBODY, NOBODY],
        Some(0),
        (2, 0, false),
    ),
    (
        [[Some(8), Some(7), None], NOBODY, NOBODY],
        Some(0),
        (2, 0, false),
    ),
    (
        [[Some(7), None, None], NOBODY, EIGHT],
        Some(0),
        (2, 0, false),
    ),
    ([NOBODY, NOBODY, EIGHT], Some(2), (1, 1, false)),
    (
        [NOBODY, [Some(9), Some(10), None], EIGHT],
        Some(1),
        (3, 0, false),
    ),
];

#[test]
fn yard_moves(rt: HostRuntime) {
    assert_eq!(rt; stands(rt.alloc()), Some(STANDS));
}

/// What a yard returns before its first record, also after a reserve of none.
fn bare(alloc: Global) -> Option<(Stand, bool)> {
    let mut yard = yard_of(alloc, 3)?;
    yard.reserve(0)?;
    let counts = [yard.count(0), yard.count(1), yard.count(2)];
    let has_token = yard.yard.is_live(Token::first()) || counts != [Some(0); 3];
    Some((yard.stand(), has_token))
}

#[test]
fn yard_without_a_record(rt: HostRuntime) {
    let nobody = ([NOBODY, NOBODY, NOBODY], None, (0, 0, true));
    assert_eq!(rt; bare(rt.alloc()), Some((nobody, false)));
}

/// Five clients on one wire: once three of their tokens have moved to the other, once one is released, and once another
/// client has come.
fn linked(alloc: Global) -> Option<[Pair; 3]> {
    let mut yard = yard_of(alloc, 2)?;
    yard.reserve(5)?;
    let first = yard.admit(1, 0)?;
    yard.admit(2, 0)?;
    let third = yard.admit(3, 0)?;
    yard.admit(4, 0)?;
    let fifth = yard.admit(5, 0)?;
    yard.move_to(third, 1)?;
    yard.move_to(first, 1)?;
    yard.move_to(fifth, 1)?;
    let moved = yard.pair();
    yard.release(first)?;
    let released = yard.pair();
    yard.admit(6, 0)?;
    Some([moved, released, yard.pair()])
}

const LINKED: [Pair; 3] = [
    ([[Some(2), Some(4), None], [Some(3), Some(1), Some(5)]], 0),
    ([[Some(2), Some(4), None], [Some(3), Some(5), None]], 1),
    ([[Some(2), Some(4), Some(6)], [Some(3), Some(5), None]], 0),
];

#[test]
fn linked_yard(rt: HostRuntime) {
    assert_eq!(rt; linked(rt.alloc()), Some(LINKED));
}

/// Client 1 on wire 2, and three on wire 0, who are dealt to the wires 2 and 3, the first of them to wire 3.
fn dealt(alloc: Global) -> Option<[Row; 3]> {
    let mut yard = yard_of(alloc, 4)?;
    yard.admit(1, 2)?;
    yard.admit(2, 0)?;
    yard.admit(3, 0)?;
    yard.admit(4, 0)?;
    yard.deal(0, 1, [2, 3])?;
    Some([yard.row(0), yard.row(2), yard.row(3)])
}

const DEALT: [Row; 3] = [NOBODY, [Some(1), Some(3), None], [Some(2), Some(4), None]];

#[test]
fn bulk_pass(rt: HostRuntime) {
    assert_eq!(rt; dealt(rt.alloc()), Some(DEALT));
}

/// The places of two tokens on one wire, how many stand there, who is released, and whether it stands there still.
type Looks = ([Option<(u32, u64)>; 2], [Option<u32>; 2], Option<u64>, bool);

fn looks(alloc: Global) -> Option<Looks> {
    let mut yard = yard_of(alloc, 3)?;
    let t = yard.admit(7, 0)?;
    let u = yard.admit(8, 0)?;
    let counts = [yard.count(0), yard.count(1)];
    yard.move_to(u, 2)?;
    let places = [yard.place(t), yard.place(u)];
    let released = yard.release(t);
    Some((places, counts, released, yard.yard.is_live(t)))
}

const LOOKS: Looks = (
    [Some((0, 7)), Some((2, 8))],
    [Some(2), Some(0)],
    Some(7),
    false,
);

#[test]
fn looks_at_tokens_and_wires(rt: HostRuntime) {
    assert_eq!(rt; looks(rt.alloc()), Some(LOOKS));
}

/// The wires and the free records after a reserve of so many, and the tokens and free records once so many came in.
fn full(alloc: Global, records: u32) -> Option<[(u32, u32); 2]> {
    let mut yard = yard_of(alloc, 3)?;
    yard.reserve(records)?;
    let reserved = (yard.yard.wires(), yard.yard.spare());
    for client in 0..records {
        yard.admit(u64::from(client), client % 3)?;
    }
    Some([reserved, (yard.yard.len(), yard.yard.spare())])
}

#[test]
fn room_for_all_clients_of_an_epoch(rt: HostRuntime) {
    let seen = full(rt.alloc(), 262_144);
    assert_eq!(rt; seen, Some([(3, 262_144), (262_144, 0)]));
}
