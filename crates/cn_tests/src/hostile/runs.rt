//! The run of a batch by the library, for the modules beside this one.

use crate::serving::{Asked, options_of};
use cn_cli::Form;
use cn_floor::Gate;
use cn_renamer::{ServeFault, serve};
use cn_report::{BatchCause, BatchFault};
use std::alloc::Global;
use std::hash::RandomState;
use std::io;
use std::sync::Wait;
use std::thread::Threads;

/// How a run ends, and what it writes.
pub(crate) fn ran<I: io::Read + Drop, G: Gate + Sync, R: Threads + Wait + Sync>(
    rt: &R,
    alloc: Global,
    state: RandomState,
    asked: Asked,
    form: Form,
    reader: I,
    gate: &G,
) -> Option<(Result<(), ServeFault>, Vec<u8>)> {
    let options = options_of(asked, form)?;
    let mut written = Vec::new(alloc);
    let done = serve(rt, alloc, reader, &mut written, &options, state, gate);
    Some((done, written))
}

/// What is answered of a batch: a text is written, or it is refused at a record for a cause.
#[derive(Clone, Copy, Debug, PartialEq, Eq)]
pub(crate) enum Answer {
    Written(&'static [u8]),
    Refused(u64, BatchCause),
}

/// Whether this is the answer to a batch in the grants form, and nothing is written of one that is refused.
pub(crate) fn is_answered<I: io::Read + Drop, G: Gate + Sync, R: Threads + Wait + Sync>(
    rt: &R,
    alloc: Global,
    state: RandomState,
    asked: Asked,
    reader: I,
    gate: &G,
    wanted: Answer,
) -> bool {
    let Some((done, written)) = ran(rt, alloc, state, asked, Form::Grants, reader, gate) else {
        return false;
    };
    match wanted {
        Answer::Written(text) => done == Ok(()) && written.as_slice() == text,
        Answer::Refused(at, cause) => {
            done == Err(ServeFault::Batch(BatchFault { at, cause })) && written.is_empty()
        }
    }
}
