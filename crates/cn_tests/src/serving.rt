//! Batches, served end to end by the library.

use crate::replaying::joined;
use crate::writers::{Narrow, Then};
use cn_cli::{Form, Options};
use cn_floor::{Gate, OpenGate};
use cn_nets::Net;
use cn_renamer::serve;
use cn_wiring::Kind;
use std::alloc::Global;
use std::hash::RandomState;
use std::sync::Wait;
use std::test::Fail;
use std::thread::Threads;

/// What a run is asked for: a kind, a width, how many workers, and a hand.
pub(crate) type Asked = (Kind, u32, u32, u32);

pub(crate) const BITONIC_TWO: Asked = (Kind::Bitonic, 2, 1, 1);

pub(crate) const BITONIC_FOUR: Asked = (Kind::Bitonic, 4, 1, 1);

pub(crate) const FIVE_ON_ONE_ENTRY: &[u8] = b"epoch,client,entry\n\
      1,17,3\n\
      1,5,3\n\
      1,99,3\n\
      1,23,3\n\
      1,42,3\n";

pub(crate) const FIVE_ON_ONE_ENTRY_SERVED: &[u8] = b"network bitonic width 4 balancers 6 depth 3\n\
      epoch 1 clients 5\n\
      exit 0 count 2\n\
      exit 1 count 1\n\
      exit 2 count 1\n\
      exit 3 count 1\n\
      name 0 client 17\n\
      name 1 client 5\n\
      name 2 client 99\n\
      name 3 client 23\n\
      name 4 client 42\n\
      end epochs 1 grants 5\n";

pub(crate) const SINGLE_CLIENT: &[u8] = b"epoch,client,entry\n\
      1,17,1\n";

const SINGLE_CLIENT_SERVED: &[u8] = b"network bitonic width 2 balancers 1 depth 1\n\
      epoch 1 clients 1\n\
      exit 0 count 1\n\
      exit 1 count 0\n\
      name 0 client 17\n\
      end epochs 1 grants 1\n";

const TWO_ENTRIES_SERVED: &[u8] = b"network bitonic width 4 balancers 6 depth 3\n\
      epoch 1 clients 2\n\
      exit 0 count 1\n\
      exit 1 count 1\n\
      exit 2 count 0\n\
      exit 3 count 0\n\
      name 0 client 8\n\
      name 1 client 9\n\
      end epochs 1 grants 2\n";

const ONE_ENTRY_OF_PERIODIC_SERVED: &[u8] = b"network periodic width 4 balancers 8 depth 4\n\
      epoch 1 clients 2\n\
      exit 0 count 1\n\
      exit 1 count 1\n\
      exit 2 count 0\n\
      exit 3 count 0\n\
      name 0 client 8\n\
      name 1 client 9\n\
      end epochs 1 grants 2\n";

const HAND_OF_ONE_SERVED: &[u8] = b"network bitonic width 4 balancers 6 depth 3\n\
      epoch 1 clients 2\n\
      exit 0 count 1\n\
      exit 1 count 1\n\
      exit 2 count 0\n\
      exit 3 count 0\n\
      name 0 client 100\n\
      name 1 client 200\n\
      end epochs 1 grants 2\n";

const HAND_OF_TWO_SERVED: &[u8] = b"network bitonic width 4 balancers 6 depth 3\n\
      epoch 1 clients 2\n\
      exit 0 count 1\n\
      exit 1 count 1\n\
      exit 2 count 0\n\
      exit 3 count 0\n\
      name 0 client 200\n\
      name 1 client 100\n\
      end epochs 1 grants 2\n";

const SEVENTEEN_TWICE_SERVED: &[u8] = b"network bitonic width 4 balancers 6 depth 3\n\
      epoch 1 clients 1\n\
      exit 0 count 1\n\
      exit 1 count 0\n\
      exit 2 count 0\n\
      exit 3 count 0\n\
      name 0 client 17\n\
      epoch 2 clients 1\n\
      exit 0 count 1\n\
      exit 1 count 0\n\
      exit 2 count 0\n\
      exit 3 count 0\n\
      name 0 client 17\n\
      end epochs 2 grants 2\n";

const GREATEST_SERVED: &[u8] = b"network bitonic width 2 balancers 1 depth 1\n\
      epoch 1 clients 1\n\
      exit 0 count 1\n\
      exit 1 count 0\n\
      name 0 client 18446744073709551615\n\
      end epochs 1 grants 1\n";

const SEVEN_SERVED: &[u8] = b"network bitonic width 2 balancers 1 depth 1\n\
      epoch 1 clients 1\n\
      exit 0 count 1\n\
      exit 1 count 0\n\
      name 0 client 7\n\
      end epochs 1 grants 1\n";

pub(crate) fn options_of(asked: Asked, form: Form) -> Option<Options> {
    let (kind, width, workers, hand) = asked;
    let net = Net::new(kind, width).ok()?;
    Options::new(net, workers, hand, form).ok()
}

/// The text that serving a batch writes, if it ends well and the writer is flushed once.
pub(crate) fn text_of<G: Gate + Sync, R: Threads + Wait + Sync>(
    rt: &R,
    alloc: Global,
    state: RandomState,
    options: &Options,
    batch: &[u8],
    gate: &G,
) -> Option<Vec<u8>> {
    let mut writer = Narrow::new(alloc, usize::MAX, Then::TakesNothing);
    match serve(rt, alloc, batch, &mut writer, options, state, gate) {
        Ok(()) if writer.flushes == 1 => Some(writer.taken),
        _ => None,
    }
}

/// The report that serving a batch writes, likewise.
pub(crate) fn served<G: Gate + Sync, R: Threads + Wait + Sync>(
    rt: &R,
    alloc: Global,
    state: RandomState,
    asked: Asked,
    batch: &[u8],
    gate: &G,
) -> Option<Vec<u8>> {
    let options = options_of(asked, Form::Report)?;
    text_of(rt, alloc, state, &options, batch, gate)
}

/// What a run is asked for, a batch, and the text that is written of it.
pub(crate) type Row = (Asked, &'static [u8], &'static [u8]);

pub(crate) const ROWS: [Row; 11] = [
    (
        BITONIC_FOUR,
        b"epoch,client,entry\n",
        b"network bitonic width 4 balancers 6 depth 3\nend epochs 0 grants 0\n",
    ),
    (BITONIC_TWO, SINGLE_CLIENT, SINGLE_CLIENT_SERVED),
    (BITONIC_FOUR, FIVE_ON_ONE_ENTRY, FIVE_ON_ONE_ENTRY_SERVED),
    (
        BITONIC_FOUR,
        b"epoch,client,entry\n1,8,0\n1,9,2\n",
        TWO_ENTRIES_SERVED,
    ),
    (
        (Kind::Periodic, 4, 1, 1),
        b"epoch,client,entry\n1,8,0\n1,9,0\n",
        ONE_ENTRY_OF_PERIODIC_SERVED,
    ),
    (
        BITONIC_FOUR,
        b"epoch,client,entry\n1,100,2\n1,200,0\n",
        HAND_OF_ONE_SERVED,
    ),
    (
        (Kind::Bitonic, 4, 1, 2),
        b"epoch,client,entry\n1,100,2\n1,200,0\n",
        HAND_OF_TWO_SERVED,
    ),
    (
        (Kind::Bitonic, 4, 1, 64),
        b"epoch,client,entry\n1,100,2\n1,200,0\n",
        HAND_OF_TWO_SERVED,
    ),
    (
        BITONIC_FOUR,
        b"epoch,client,entry\n1,17,0\n2,17,0\n",
        SEVENTEEN_TWICE_SERVED,
    ),
    (
        BITONIC_TWO,
        b"epoch,client,entry\n1,18446744073709551615,0\n",
        GREATEST_SERVED,
    ),
    (BITONIC_TWO, b"epoch,client,entry\n1,007,0\n", SEVEN_SERVED),
];

pub(crate) const THREE_CLIENTS: &[u8] = b"epoch,client,entry\n\
      1,5,0\n\
      1,6,1\n\
      1,7,2\n";

const THREE_CLIENTS_COUNTED: &[u8] = b"network bitonic width 4 balancers 6 depth 3\n\
      epoch 1 clients 3\n\
      exit 0 count 1\n\
      exit 1 count 1\n\
      exit 2 count 1\n\
      exit 3 count 0\n";

/// Who of the three has which name, in each of their orders.
const THREE_CLIENTS_NAMED: [&[u8]; 6] = [
    b"name 0 client 5\nname 1 client 6\nname 2 client 7\n",
    b"name 0 client 5\nname 1 client 7\nname 2 client 6\n",
    b"name 0 client 6\nname 1 client 5\nname 2 client 7\n",
    b"name 0 client 6\nname 1 client 7\nname 2 client 5\n",
    b"name 0 client 7\nname 1 client 5\nname 2 client 6\n",
    b"name 0 client 7\nname 1 client 6\nname 2 client 5\n",
];

/// Whether a text is that of the three, named so.
fn are_named(alloc: Global, text: &[u8], names: &[u8]) -> bool {
    match joined(
        alloc,
        &[THREE_CLIENTS_COUNTED, names, b"end epochs 1 grants 3\n"],
    ) {
        Ok(wanted) => text == wanted.as_slice(),
        Err(_) => false,
    }
}

/// The first order of the three in which a text names them.
fn order_of(alloc: Global, text: &[u8]) -> Option<usize> {
    for (place, names) in THREE_CLIENTS_NAMED.iter().enumerate() {
        if are_named(alloc, text, names) {
            return Some(place);
        }
    }
    None
}

/// In which order so many workers name the three.
fn order_by<R: Threads + Wait + Sync>(
    rt: &R,
    alloc: Global,
    state: RandomState,
    workers: u32,
) -> Option<usize> {
    let asked = (Kind::Bitonic, 4, workers, 1);
    let text = served(rt, alloc, state, asked, THREE_CLIENTS, &OpenGate)?;
    order_of(alloc, &text)
}

#[test]
fn idle_workers(rt: HostRuntime) -> Result<(), Fail> {
    let (alloc, state) = (rt.alloc(), RandomState::new(&rt)?);
    let one = order_by(&rt, alloc, state, 1);
    let eight = order_by(&rt, alloc, state, 8).is_some();
    assert_eq!(rt; (one, eight), (Some(0), true));
    Ok(())
}
