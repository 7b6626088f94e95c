//! The words of command lines, done as the program does them.

use crate::job_texts::{
    BATCH, BATCH_ON_BITONIC_TWO, GRANTS, GRANTS_OF_WIDTH_TWO, HAND_OF_TWO_AS_GRANTS, ONE_CLIENT,
    ONE_CLIENT_ON_BITONIC_FOUR, ONE_CLIENT_ON_PERIODIC_TWO, TREE_TWO, TWO_CLIENTS,
};
use crate::performing::{Given, source_of, writer_of};
use crate::words::words;
use crate::writers::{Narrow, Then};
use cn_renamer::{end, run};
use std::alloc::Global;
use std::sync::Wait;
use std::thread::Threads;

/// What the words of a line write of an input, the status, and what is printed of the fault.
fn ran<R: Threads + Wait + Sync>(
    rt: &R,
    alloc: Global,
    line: &str,
    input: &[u8],
) -> Option<(Vec<u8>, u8, Vec<u8>)> {
    let words = words(alloc, line).ok()?;
    let mut writer = writer_of(alloc, Given::All);
    let done = run(rt, alloc, words, input, &mut writer, &source_of(Given::All));
    let mut errors = Narrow::new(alloc, 1_000, Then::TakesNothing);
    let status = end(&done, &mut errors);
    Some((writer.taken, status, errors.taken))
}

/// Whether the words of a line write this text of an input, and end with status 0 and nothing printed.
fn writes<R: Threads + Wait + Sync>(
    rt: &R,
    alloc: Global,
    line: &str,
    input: &[u8],
    wanted: &[u8],
) -> bool {
    match ran(rt, alloc, line, input) {
        Some((written, status, errors)) => {
            written.as_slice() == wanted && status == 0 && errors.is_empty()
        }
        None => false,
    }
}

const LINES: [(&str, &[u8], &[u8]); 8] = [
    (
        "renamer replay --network bitonic --width 4",
        ONE_CLIENT,
        ONE_CLIENT_ON_BITONIC_FOUR,
    ),
    (
        "renamer replay --width 2 --network periodic",
        ONE_CLIENT,
        ONE_CLIENT_ON_PERIODIC_TWO,
    ),
    (
        "renamer show --network tree --width 2",
        ONE_CLIENT,
        TREE_TWO,
    ),
    (
        "renamer run --network bitonic --width 2 --hand 64",
        BATCH,
        BATCH_ON_BITONIC_TWO,
    ),
    (
        "renamer run --network bitonic --width 4 --hand 2 --form grants",
        TWO_CLIENTS,
        HAND_OF_TWO_AS_GRANTS,
    ),
    (
        "renamer run --network bitonic --width 4 --hand 2 --form grants --together",
        TWO_CLIENTS,
        HAND_OF_TWO_AS_GRANTS,
    ),
    ("renamer check --width 2", GRANTS, GRANTS_OF_WIDTH_TWO),
    (
        "renamer check --width 2 --large",
        GRANTS,
        GRANTS_OF_WIDTH_TWO,
    ),
];

/// The first line that writes something else.
fn wrong_line<R: Threads + Wait + Sync>(rt: &R, alloc: Global) -> Option<&'static str> {
    for (line, input, text) in &LINES {
        if !writes(rt, alloc, line, input, text) {
            return Some(*line);
        }
    }
    None
}

#[test]
fn words_are_done(rt: HostRuntime) {
    assert_eq!(rt; wrong_line(&rt, rt.alloc()), None);
}
