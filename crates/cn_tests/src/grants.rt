//! Grant lists, judged.

use crate::checking::{TWO_EPOCHS, TWO_EPOCHS_TIGHT};
use crate::writers::Broken;
use cn_report::{Flaw, Tight, check_grants, render_tight};
use cn_wiring::is_width;
use std::alloc::Global;
use std::io;

/// Judges a list for width 4.
fn judged<I: io::Read + Drop>(alloc: Global, reader: I) -> Option<Result<Tight, Flaw>> {
    if is_width(4) {
        Some(check_grants(alloc, reader, 4))
    } else {
        None
    }
}

fn has_text(alloc: Global, tight: &Tight, wanted: &[u8]) -> bool {
    match render_tight(alloc, tight) {
        Ok(text) => text.as_slice() == wanted,
        Err(_) => false,
    }
}

/// Whether a list is tight, and this is its text.
pub(crate) fn is_tight(alloc: Global, list: &[u8], wanted: &[u8]) -> bool {
    match judged(alloc, list) {
        Some(Ok(tight)) => has_text(alloc, &tight, wanted),
        _ => false,
    }
}

/// Lists that are tight, and their texts.
const TIGHT: [(&[u8], &[u8]); 5] = [
    (b"epoch,client,name\n", b"tight epochs 0 grants 0\n"),
    (TWO_EPOCHS, TWO_EPOCHS_TIGHT),
    (
        b"\xef\xbb\xbfepoch,client,name\r\n\r\n1,11,1\r\n1,\"10\",000\r\n2,10,0",
        TWO_EPOCHS_TIGHT,
    ),
    (
        b"epoch,client,name\n1,17,0\n1,5,1\n1,99,2\n1,23,3\n1,42,4\n",
        b"epoch 1 clients 5 counts 2 1 1 1\ntight epochs 1 grants 5\n",
    ),
    (
        b"epoch,client,name\n0,1,4\n0,2,2\n0,3,0\n0,0,1\n0,18446744073709551615,3\n9,0,0\n",
        b"epoch 0 clients 5 counts 2 1 1 1\nepoch 9 clients 1 counts 1 0 0 0\ntight epochs 2 grants 6\n",
    ),
];

/// The place of the first list that has another text.
fn wrong_list(alloc: Global) -> Option<usize> {
    for (place, row) in TIGHT.iter().enumerate() {
        if !is_tight(alloc, row.0, row.1) {
            return Some(place);
        }
    }
    None
}

#[test]
fn tight_lists(rt: HostRuntime) {
    assert_eq!(rt; wrong_list(rt.alloc()), None);
}

/// Whether a list has this flaw.
fn has_flaw<I: io::Read + Drop>(alloc: Global, reader: I, flaw: Flaw) -> bool {
    match judged(alloc, reader) {
        Some(Err(found)) => found == flaw,
        _ => false,
    }
}

/// Lists and their flaws.
const FLAWS: [(&[u8], Flaw); 19] = [
    (b"", Flaw::Form(0)),
    (b"1,10,0\n", Flaw::Form(0)),
    (b"epoch,client,entry\n", Flaw::Form(0)),
    (
        b"epoch,client,name\n1,10,0\n1,11,1\n1,12,3\n",
        Flaw::Gap { epoch: 1, name: 2 },
    ),
    (
        b"epoch,client,name\n1,10,0\n1,11,1\n1,12,1\n",
        Flaw::DuplicateName(3),
    ),
    (
        b"epoch,client,name\n1,10,0\n1,10,0\n",
        Flaw::DuplicateClient(2),
    ),
    (b"epoch,client,name\n1,10,0\n2,11,x\n", Flaw::Form(2)),
    (
        b"epoch,client,name\n1,10,1\n",
        Flaw::Gap { epoch: 1, name: 0 },
    ),
    (
        b"epoch,client,name\n1,10,9\n2,10,9\n",
        Flaw::Gap { epoch: 1, name: 0 },
    ),
    (
        b"epoch,client,name\n1,10,0\n2,5,0\n2,6,9\n2,7,8\n",
        Flaw::Gap { epoch: 2, name: 1 },
    ),
    (
        b"epoch,client,name\n1,10,9\n1,11,9\n",
        Flaw::DuplicateName(2),
    ),
    (b"epoch,client,name\n1,10,9\n2,11\n", Flaw::Form(2)),
    (b"epoch,client,name\n1,10,0\n1,10,1,0\n", Flaw::Form(2)),
    (b"epoch,client,name\n1,10,0,0\n", Flaw::Form(1)),
    (b"epoch,client,name\n+1,10,0\n", Flaw::Form(1)),
    (b"epoch,client,name\n1,10,0\xff\n", Flaw::Form(1)),
    (
        b"epoch,client,name\n1,000000000000000000007,0\n",
        Flaw::Form(1),
    ),
    (b"epoch,client,name\n2,10,0\n1,10,0\n", Flaw::Form(2)),
    (
        b"epoch,client,name\n1,10,0\n1,010,1\n1,x,1\n",
        Flaw::DuplicateClient(2),
    ),
];

/// The place of the first list that has another flaw.
fn wrong_flaw(alloc: Global) -> Option<usize> {
    for (place, row) in FLAWS.iter().enumerate() {
        if !has_flaw(alloc, row.0, row.1) {
            return Some(place);
        }
    }
    None
}

#[test]
fn grant_list_verdicts(rt: HostRuntime) {
    assert_eq!(rt; wrong_flaw(rt.alloc()), None);
}

/// The first number of bytes after which a failed read has another fault, and how many lines were read before it.
fn wrong_read(alloc: Global) -> (Option<usize>, u64) {
    let mut lines = 0u64;
    for end in 0..=TWO_EPOCHS.len() {
        let left = &TWO_EPOCHS[..end];
        if left.ends_with(b"\n") {
            lines = lines.saturating_add(1);
        }
        if !has_flaw(alloc, Broken { left }, Flaw::Read(lines)) {
            return (Some(end), lines);
        }
    }
    (None, lines)
}

#[test]
fn read_cut_anywhere(rt: HostRuntime) {
    assert_eq!(rt; wrong_read(rt.alloc()), (None, 4));
}
