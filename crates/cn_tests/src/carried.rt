//! Batches whose counters are carried from epoch to epoch.

use crate::replaying::joined;
use crate::serving::{Asked, FIVE_ON_ONE_ENTRY, FIVE_ON_ONE_ENTRY_SERVED, options_of, text_of};
use cn_cli::Form;
use cn_floor::OpenGate;
use cn_wiring::Kind;
use std::alloc::Global;
use std::hash::RandomState;
use std::sync::Wait;
use std::test::Fail;
use std::thread::Threads;

/// The batch of the five, and three clients more in a second epoch.
const SECOND_EPOCH: &[u8] = b"2,1,0\n2,2,0\n2,3,0\n";

/// How its report goes on in place of its last line.
const LAST_LINE: &[u8] = b"end epochs 1 grants 5\n";

const SECOND_EPOCH_SERVED: &[u8] = b"epoch 2 clients 3\n\
      exit 0 count 0\n\
      exit 1 count 1\n\
      exit 2 count 1\n\
      exit 3 count 1\n\
      name 0 client 1\n\
      name 1 client 2\n\
      name 2 client 3\n\
      end epochs 2 grants 8\n";

/// The batch.
fn batch(alloc: Global) -> Option<Vec<u8>> {
    joined(alloc, &[FIVE_ON_ONE_ENTRY, SECOND_EPOCH]).ok()
}

/// Its report.
fn batch_served(alloc: Global) -> Option<Vec<u8>> {
    let kept = FIVE_ON_ONE_ENTRY_SERVED
        .len()
        .saturating_sub(LAST_LINE.len());
    let (first, last) = FIVE_ON_ONE_ENTRY_SERVED.split_at(kept);
    if last == LAST_LINE {
        joined(alloc, &[first, SECOND_EPOCH_SERVED]).ok()
    } else {
        None
    }
}

/// The text that is written of a batch.
fn carried<R: Threads + Wait + Sync>(
    rt: &R,
    alloc: Global,
    state: RandomState,
    asked: Asked,
    form: Form,
    batch: &[u8],
) -> Option<Vec<u8>> {
    let options = options_of(asked, form)?.carried();
    text_of(rt, alloc, state, &options, batch, &OpenGate)
}

/// A report in two parts.
#[derive(Drop)]
struct Parts {
    /// The clients' numbers, line by line.
    clients: Vec<u64>,
    /// The report without them.
    rest: Vec<u8>,
}

/// Parts a report: the fourth word of a line that begins with `n`, if it is the last, is a client's number.
fn parted(alloc: Global, text: &[u8]) -> Option<Parts> {
    let mut clients = Vec::new(alloc);
    let mut rest = Vec::new(alloc);
    let mut is_name = false;
    let mut spaces = 0u32;
    let mut client = 0u64;
    let mut before = b'\n';
    for byte in text {
        if before == b'\n' {
            is_name = *byte == b'n';
            spaces = 0;
            client = 0;
        }
        before = *byte;
        if is_name && spaces == 3 && *byte != b' ' && *byte != b'\n' {
            let digit = byte.checked_sub(b'0')?;
            client = client.saturating_mul(10).saturating_add(u64::from(digit));
            continue;
        }
        if *byte == b' ' {
            spaces = spaces.saturating_add(1);
        }
        if is_name && spaces == 3 && *byte == b'\n' {
            clients.push(client).ok()?;
        }
        rest.push(*byte).ok()?;
    }
    Some(Parts { clients, rest })
}

/// Whether the clients of each epoch have its names, each client one.
fn have_names(clients: &[u64]) -> bool {
    if clients.len() != 8 {
        return false;
    }
    let (first, second) = clients.split_at(5);
    let are_five = [17, 5, 99, 23, 42]
        .iter()
        .all(|client| first.contains(client));
    let are_three = [1, 2, 3].iter().all(|client| second.contains(client));
    are_five && are_three
}

/// Whether this many workers write of the batch what one writes, but for the clients' numbers, and whether these are
/// those of the batch.
fn is_alike<R: Threads + Wait + Sync>(
    rt: &R,
    alloc: Global,
    state: RandomState,
    workers: u32,
) -> Option<[bool; 2]> {
    let batch = batch(alloc)?;
    let asked = (Kind::Bitonic, 4, workers, 1);
    let text = carried(rt, alloc, state, asked, Form::Report, &batch)?;
    let written = parted(alloc, &text)?;
    let wanted = parted(alloc, &batch_served(alloc)?)?;
    Some([
        written.rest.as_slice() == wanted.rest.as_slice(),
        have_names(&written.clients),
    ])
}

#[test]
fn carried_by_many(rt: HostRuntime) -> Result<(), Fail> {
    let (alloc, state) = (rt.alloc(), RandomState::new(&rt)?);
    let two = is_alike(&rt, alloc, state, 2);
    let eight = is_alike(&rt, alloc, state, 8);
    assert_eq!(rt; [two, eight], [Some([true; 2]), Some([true; 2])]);
    Ok(())
}
