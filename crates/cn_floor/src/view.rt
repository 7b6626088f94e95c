//! What lanes have done, as the rule of a floor sees it.

use cn_ledger::Client;
use cn_tables::Counting;
use cn_yard::Token;
use std::collections::LinkedList;
use std::snapshot::Snapshot;

/// A client's way out, and its name.
#[derive(Clone, Copy, Debug, PartialEq, Eq)]
pub struct Grant {
    /// Who left.
    pub client: u64,
    /// The exit.
    pub exit: u32,
    /// How many had left by the exit before, since its word was 0.
    pub visit: u64,
    /// The name.
    pub name: u64,
}

/// A passage of a balancer. No value of it is made.
pub struct Passage {
    /// The balancer.
    pub balancer: u32,
    /// How many had passed it before, since its word was 0.
    pub number: u64,
}

/// Where the tokens of a wire went in a sweep: by its end, first to last, with the numbers or visits from `first` on.
#[derive(Clone, Copy, Debug, PartialEq, Eq)]
pub enum Sweep {
    /// By a balancer.
    On {
        /// The balancer.
        balancer: u32,
        /// How many had passed it before, since its word was 0: the number of the first.
        first: u64,
        /// How many they are.
        tokens: u64,
    },
    /// Out, by an exit.
    Out {
        /// The exit.
        exit: u32,
        /// How many had left by it before, since its word was 0: the visit of the first.
        first: u64,
        /// How many they are.
        tokens: u64,
    },
}

/// What a floor begins with. No value of it is made.
pub struct Start {
    /// Its network.
    pub network: Counting,
    /// The quota of its first lane.
    pub quota: u64,
    /// The words of earlier floors.
    pub words: LinkedList<u64>,
    /// How far apart two neighbours lie in its table.
    pub stride: usize,
}

/// What a lane has done. No value of it is made.
pub struct View {
    /// What its floor began with.
    pub start: Start,
    /// How many more clients it may let in.
    pub quota: u64,
    /// The entry of each client that it let in.
    pub entries: LinkedList<u32>,
    /// These clients, each with its entry, in the same order.
    pub came: LinkedList<Client>,
    /// Its tokens, wire by wire, each with its client.
    pub tokens: LinkedList<LinkedList<(Token, u64)>>,
    /// The passages that its steps made.
    pub passages: LinkedList<Passage>,
    /// The names that it granted.
    pub grants: LinkedList<Grant>,
    /// The greatest answer that it got to how many came in.
    pub seen: u64,
    /// What it has loaded so far.
    pub loads: LinkedList<u64>,
    /// How many atomic steps led to it: adds, loads, looks, splits and joins, also of the lanes that it came of.
    pub steps: u64,
}

/// What the words of a floor are opened with.
#[derive(Drop)]
pub struct Opening {
    /// Their network.
    pub network: Snapshot<Counting>,
    /// How many clients may come in.
    pub quota: u64,
    /// The words of earlier floors.
    pub words: Snapshot<Vec<u64>>,
    /// How far apart two neighbours lie in the table.
    pub stride: usize,
}
