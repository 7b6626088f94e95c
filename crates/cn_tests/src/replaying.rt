//! Schedules, and what their replays write.

use cn_wiring::Kind;
use std::alloc::{AllocError, Global};

pub(crate) const TWO_CLIENTS: &[u8] = b"op,client,wire\n\
      enter,7,0\n\
      enter,9,1\n\
      step,9,\n\
      step,7,\n\
      step,9,\n\
      step,7,\n";

const TWO_CLIENTS_REPLAYED: &[u8] = b"network bitonic width 2 balancers 1 depth 1\n\
      enter 7 wire 0\n\
      enter 9 wire 1\n\
      pass 9 balancer 0 number 0 wire 2\n\
      pass 7 balancer 0 number 1 wire 3\n\
      leave 9 exit 0 visit 0 name 0\n\
      leave 7 exit 1 visit 0 name 1\n\
      end epoch 0 entered 2 inside 0\n";

/// Each command that is refused but a turn.
const REFUSALS: &[u8] = b"op,client,wire\n\
      step,5,\n\
      enter,7,0\n\
      enter,7,1\n\
      enter,7,2\n\
      step,7,\n\
      step,7,\n\
      step,7,\n\
      enter,7,0\n";

const REFUSALS_REPLAYED: &[u8] = b"network bitonic width 2 balancers 1 depth 1\n\
      refused step 5 Stranger\n\
      enter 7 wire 0\n\
      refused enter 7 AlreadyIn\n\
      refused enter 7 NoSuchEntry\n\
      pass 7 balancer 0 number 0 wire 2\n\
      leave 7 exit 0 visit 0 name 0\n\
      refused step 7 HasName 0\n\
      refused enter 7 AlreadyIn\n";

/// A turn after only client 7.
const ALONE_TURNED: &[u8] = b"turn epoch 0 clients 1\n\
      exit 0 count 1\n\
      exit 1 count 0\n\
      name 0 client 7\n";

const TURN_REFUSED_THEN_DONE: &[u8] = b"op,client,wire\n\
      enter,7,0\n\
      turn,,\n\
      step,7,\n\
      step,7,\n\
      turn,,\n";

const TURN_REFUSED_THEN_DONE_REPLAYED: &[u8] = b"network bitonic width 2 balancers 1 depth 1\n\
      enter 7 wire 0\n\
      refused turn NotQuiet 1\n\
      pass 7 balancer 0 number 0 wire 2\n\
      leave 7 exit 0 visit 0 name 0\n";

const BITONIC_FOUR: &[u8] = b"op,client,wire\n\
      enter,8,0\n\
      enter,9,2\n\
      step,8,\n\
      step,8,\n\
      step,8,\n\
      step,8,\n\
      step,9,\n\
      step,9,\n\
      step,9,\n\
      step,9,\n";

const BITONIC_FOUR_REPLAYED: &[u8] = b"network bitonic width 4 balancers 6 depth 3\n\
      enter 8 wire 0\n\
      enter 9 wire 2\n\
      pass 8 balancer 0 number 0 wire 4\n\
      pass 8 balancer 2 number 0 wire 8\n\
      pass 8 balancer 4 number 0 wire 12\n\
      leave 8 exit 0 visit 0 name 0\n\
      pass 9 balancer 1 number 0 wire 6\n\
      pass 9 balancer 3 number 0 wire 10\n\
      pass 9 balancer 4 number 1 wire 13\n\
      leave 9 exit 1 visit 0 name 1\n\
      end epoch 0 entered 2 inside 0\n";

const TREE_OVERTAKING: &[u8] = b"op,client,wire\n\
      enter,10,0\n\
      enter,20,0\n\
      enter,30,0\n\
      step,10,\n\
      step,20,\n\
      step,30,\n\
      step,30,\n\
      step,30,\n\
      step,10,\n\
      step,10,\n\
      step,20,\n\
      step,20,\n";

const TREE_OVERTAKING_REPLAYED: &[u8] = b"network tree width 4 balancers 3 depth 2\n\
      enter 10 wire 0\n\
      enter 20 wire 0\n\
      enter 30 wire 0\n\
      pass 10 balancer 0 number 0 wire 1\n\
      pass 20 balancer 0 number 1 wire 2\n\
      pass 30 balancer 0 number 2 wire 1\n\
      pass 30 balancer 1 number 0 wire 3\n\
      leave 30 exit 0 visit 0 name 0\n\
      pass 10 balancer 1 number 1 wire 4\n\
      leave 10 exit 2 visit 0 name 2\n\
      pass 20 balancer 2 number 0 wire 5\n\
      leave 20 exit 1 visit 0 name 1\n";

/// A turn after those: each exit's count, and each name's holder.
const TREE_OVERTAKING_TURNED: &[u8] = b"turn epoch 0 clients 3\n\
      exit 0 count 1\n\
      exit 1 count 1\n\
      exit 2 count 1\n\
      exit 3 count 0\n\
      name 0 client 30\n\
      name 1 client 20\n\
      name 2 client 10\n\
      end epoch 1 entered 0 inside 0\n";

const PERIODIC_FOUR: &[u8] = b"op,client,wire\n\
      enter,8,0\n\
      enter,9,0\n\
      step,8,\n\
      step,8,\n\
      step,8,\n\
      step,8,\n\
      step,8,\n\
      step,9,\n\
      step,9,\n\
      step,9,\n\
      step,9,\n\
      step,9,\n";

const PERIODIC_FOUR_REPLAYED: &[u8] = b"network periodic width 4 balancers 8 depth 4\n\
      enter 8 wire 0\n\
      enter 9 wire 0\n\
      pass 8 balancer 0 number 0 wire 4\n\
      pass 8 balancer 2 number 0 wire 8\n\
      pass 8 balancer 4 number 0 wire 12\n\
      pass 8 balancer 6 number 0 wire 16\n\
      leave 8 exit 0 visit 0 name 0\n\
      pass 9 balancer 0 number 1 wire 5\n\
      pass 9 balancer 3 number 0 wire 10\n\
      pass 9 balancer 5 number 0 wire 14\n\
      pass 9 balancer 6 number 1 wire 17\n\
      leave 9 exit 1 visit 0 name 1\n\
      end epoch 0 entered 2 inside 0\n";

/// A kind and a width, and a schedule and what its replay writes, each in parts.
pub(crate) type Row = (
    Kind,
    u32,
    &'static [&'static [u8]],
    &'static [&'static [u8]],
);

pub(crate) const ROWS: [Row; 10] = [
    (Kind::Bitonic, 2, &[TWO_CLIENTS], &[TWO_CLIENTS_REPLAYED]),
    (
        Kind::Bitonic,
        2,
        &[REFUSALS],
        &[REFUSALS_REPLAYED, b"end epoch 0 entered 1 inside 0\n"],
    ),
    (
        Kind::Bitonic,
        2,
        &[TURN_REFUSED_THEN_DONE],
        &[
            TURN_REFUSED_THEN_DONE_REPLAYED,
            ALONE_TURNED,
            b"end epoch 1 entered 0 inside 0\n",
        ],
    ),
    (
        Kind::Bitonic,
        2,
        &[REFUSALS, b"turn,,\n", b"enter,7,0\n"],
        &[
            REFUSALS_REPLAYED,
            ALONE_TURNED,
            b"enter 7 wire 0\n",
            b"end epoch 1 entered 1 inside 1\n",
        ],
    ),
    (
        Kind::Tree,
        2,
        &[b"op,client,wire\n", b"turn,,\n"],
        &[
            b"network tree width 2 balancers 1 depth 1\n",
            b"turn epoch 0 clients 0\n",
            b"exit 0 count 0\n",
            b"exit 1 count 0\n",
            b"end epoch 1 entered 0 inside 0\n",
        ],
    ),
    (Kind::Bitonic, 4, &[BITONIC_FOUR], &[BITONIC_FOUR_REPLAYED]),
    (
        Kind::Periodic,
        4,
        &[PERIODIC_FOUR],
        &[PERIODIC_FOUR_REPLAYED],
    ),
    (
        Kind::Tree,
        4,
        &[TREE_OVERTAKING],
        &[
            TREE_OVERTAKING_REPLAYED,
            b"end epoch 0 entered 3 inside 0\n",
        ],
    ),
    (
        Kind::Tree,
        4,
        &[TREE_OVERTAKING, b"turn,,\n"],
        &[TREE_OVERTAKING_REPLAYED, TREE_OVERTAKING_TURNED],
    ),
    (
        Kind::Bitonic,
        64,
        &[b"op,client,wire\n"],
        &[
            b"network bitonic width 64 balancers 672 depth 21\n",
            b"end epoch 0 entered 0 inside 0\n",
        ],
    ),
];

/// The parts, one after another.
pub(crate) fn joined(alloc: Global, parts: &[&[u8]]) -> Result<Vec<u8>, AllocError> {
    let mut text = Vec::new(alloc);
    for part in parts {
        text.extend_from_slice(part)?;
    }
    Ok(text)
}
