//! Texts of more than 65,536 bytes, which are written in pieces and flushed once.

use super::limits::{ONE_WORKER, full_epochs};
use crate::serving::options_of;
use crate::writers::{Narrow, Then};
use cn_cli::Form;
use cn_floor::OpenGate;
use cn_renamer::serve;
use std::alloc::Global;
use std::hash::RandomState;
use std::sync::Wait;
use std::test::Fail;
use std::thread::Threads;

/// How often a writer of the text of 10,000 clients is flushed, and how many bytes it takes.
fn flushed<R: Threads + Wait + Sync>(
    rt: &R,
    alloc: Global,
    state: RandomState,
    form: Form,
) -> Option<(usize, usize)> {
    let options = options_of(ONE_WORKER, form)?;
    let mut writer = Narrow::new(alloc, usize::MAX, Then::TakesNothing);
    let batch = full_epochs(10_000, b"");
    match serve(rt, alloc, batch, &mut writer, &options, state, &OpenGate) {
        Ok(()) => Some((writer.flushes, writer.taken.len())),
        Err(_) => None,
    }
}

/// The numbers from 0 to 9,999 have 38,890 digits, and each is a name and a client: with the other 14 bytes of a line
/// and the 125 of the other lines the report has so many bytes.
const REPORT: usize = 10_000 * 14 + 2 * 38_890 + 125;

/// The same of the grant list: 4 other bytes of a record, and a header of 18.
const GRANTS: usize = 10_000 * 4 + 2 * 38_890 + 18;

#[test]
fn long_texts_are_flushed_once(rt: HostRuntime) -> Result<(), Fail> {
    let (alloc, state) = (rt.alloc(), RandomState::new(&rt)?);
    let report = flushed(&rt, alloc, state, Form::Report);
    let grants = flushed(&rt, alloc, state, Form::Grants);
    assert_eq!(rt; (report, grants), (Some((1, REPORT)), Some((1, GRANTS))));
    Ok(())
}
