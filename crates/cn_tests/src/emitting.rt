//! Texts, written to writers that take little or fail.

use crate::writers::{Narrow, Then};
use cn_report::{EmitFault, emit};
use std::alloc::Global;
use std::io;

const TEXT: &[u8] = b"network tree width 2 balancers 1 depth 1\n";

/// The end of writing a text, whether the writer has taken this much of it, and how often it was flushed.
fn emitted(mut writer: Narrow, text: &[u8], taken: usize) -> (Result<(), EmitFault>, bool, usize) {
    let done = emit(&mut writer, text);
    let is_taken = Some(writer.taken.as_slice()) == text.get(..taken);
    (done, is_taken, writer.flushes)
}

#[test]
fn the_whole_text_is_written_and_flushed_once(rt: HostRuntime) {
    let writer = Narrow::new(rt.alloc(), 1_000, Then::TakesNothing);
    assert_eq!(rt; emitted(writer, TEXT, TEXT.len()), (Ok(()), true, 1));
}

/// The first room of a writer at which writing to it ends otherwise.
fn wrong_write(alloc: Global, then: Then) -> Option<usize> {
    for room in 0..TEXT.len() {
        let written = room as u64;
        let writer = Narrow::new(alloc, room, then);
        if emitted(writer, TEXT, room) != (Err(EmitFault { written }), true, 0) {
            return Some(room);
        }
    }
    None
}

const ENDS: [Then; 4] = [
    Then::TakesNothing,
    Then::Fails(io::ErrorKind::BrokenPipe),
    Then::Fails(io::ErrorKind::Interrupted),
    Then::FailsOnce,
];

/// The first way to fail, and room, at which writing ends otherwise.
fn wrong_end(alloc: Global) -> Option<(Then, usize)> {
    for then in &ENDS {
        if let Some(room) = wrong_write(alloc, *then) {
            return Some((*then, room));
        }
    }
    None
}

#[test]
fn write_cut_anywhere(rt: HostRuntime) {
    assert_eq!(rt; wrong_end(rt.alloc()), None);
}

#[test]
fn an_empty_text_is_flushed(rt: HostRuntime) {
    let writer = Narrow::new(rt.alloc(), 0, Then::TakesNothing);
    assert_eq!(rt; emitted(writer, b"", 0), (Ok(()), true, 1));
}
