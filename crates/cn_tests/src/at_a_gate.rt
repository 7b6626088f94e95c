//! Batches served at a gate that lets each step go: rows of which one worker writes one text, and the grant lists of many
//! workers on each network.

use crate::grants::is_tight;
use crate::grants_form;
use crate::serving::{ROWS, Row, THREE_CLIENTS, options_of, text_of};
use cn_cli::{Form, Options};
use cn_floor::OpenGate;
use cn_wiring::Kind;
use std::alloc::Global;
use std::hash::RandomState;
use std::sync::Wait;
use std::test::Fail;
use std::thread::Threads;

/// The three at the one entry that a tree has.
const THREE_AT_ONE_ENTRY: &[u8] = b"epoch,client,entry\n\
      1,5,0\n\
      1,6,0\n\
      1,7,0\n";

const THREE_TIGHT: &[u8] = b"epoch 1 clients 3 counts 1 1 1 0\n\
      tight epochs 1 grants 3\n";

/// Whether the grant list of the three is tight, by so many workers on the network of width 4 of a kind.
fn are_tight<R: Threads + Wait + Sync>(
    rt: &R,
    alloc: Global,
    state: RandomState,
    kind: Kind,
    workers: u32,
) -> Option<bool> {
    let options = options_of((kind, 4, workers, 1), Form::Grants)?;
    let batch = if kind == Kind::Tree {
        THREE_AT_ONE_ENTRY
    } else {
        THREE_CLIENTS
    };
    let list = text_of(rt, alloc, state, &options, batch, &OpenGate)?;
    Some(is_tight(alloc, list.as_slice(), THREE_TIGHT))
}

/// The first kind and number of workers whose list is not tight.
fn wrong_list<R: Threads + Wait + Sync>(
    rt: &R,
    alloc: Global,
    state: RandomState,
) -> Option<(Kind, u32)> {
    for kind in [Kind::Bitonic, Kind::Periodic, Kind::Tree] {
        for workers in [1, 2, 3, 8, 64] {
            if are_tight(rt, alloc, state, kind, workers) != Some(true) {
                return Some((kind, workers));
            }
        }
    }
    None
}

#[test]
fn idle_workers_of_each_network(rt: HostRuntime) -> Result<(), Fail> {
    let wrong = wrong_list(&rt, rt.alloc(), RandomState::new(&rt)?);
    assert_eq!(rt; wrong, None);
    Ok(())
}

/// Whether a run writes this text of a batch.
fn is_written<R: Threads + Wait + Sync>(
    rt: &R,
    alloc: Global,
    state: RandomState,
    options: Option<Options>,
    batch: &[u8],
    wanted: &[u8],
) -> bool {
    let Some(options) = options else {
        return false;
    };
    match text_of(rt, alloc, state, &options, batch, &OpenGate) {
        Some(text) => text.as_slice() == wanted,
        None => false,
    }
}

/// The place of the first of these rows that has another text by one worker at a gate.
fn wrong_row<R: Threads + Wait + Sync>(
    rt: &R,
    alloc: Global,
    state: RandomState,
    rows: &[Row],
    form: Form,
) -> Option<usize> {
    for (place, (asked, batch, wanted)) in rows.iter().enumerate() {
        if !is_written(rt, alloc, state, options_of(*asked, form), *batch, *wanted) {
            return Some(place);
        }
    }
    None
}

#[test]
fn rows_at_a_gate(rt: HostRuntime) -> Result<(), Fail> {
    let (alloc, state) = (rt.alloc(), RandomState::new(&rt)?);
    let wrong = (
        wrong_row(&rt, alloc, state, &ROWS, Form::Report),
        wrong_row(&rt, alloc, state, &grants_form::ROWS, Form::Grants),
    );
    assert_eq!(rt; wrong, (None, None));
    Ok(())
}
