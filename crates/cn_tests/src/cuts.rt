//! The texts of the worked rows, by each job to writers that fail, or take nothing more, after each number of bytes;
//! and inputs whose reader fails after each number of lines.

ghost use Rattle.cn_renamer.specs.Performing.{IsBuiltFor};

use crate::performing::is_built;
use crate::replaying::{self, joined};
use crate::serving::{self, options_of};
use crate::writers::{Broken, Narrow, Then};
use crate::{checking, grants_form, showing};
use cn_cli::{Form, Job};
use cn_nets::Net;
use cn_renamer::{CheckFault, Fault, OutputFault, ReplayFault, ServeFault, perform};
use cn_report::{BatchCause, BatchFault, Flaw, ScheduleCause, ScheduleFault};
use cn_wiring::Kind;
use std::alloc::Global;
use std::random::RandomSource;
use std::sync::Wait;
use std::thread::Threads;

/// After how many bytes a write failed, if that is what a job ended with.
fn cut_at(done: &Result<(), Fault>) -> Option<u64> {
    let Err(fault) = done else {
        return None;
    };
    match fault {
        Fault::Serve(ServeFault::Write { written }) => Some(*written),
        Fault::Replay(ReplayFault::Write { written }) => Some(*written),
        Fault::Check(CheckFault::Write { written }) => Some(*written),
        Fault::Output(OutputFault::Write { written }) => Some(*written),
        _ => None,
    }
}

/// Whether a job to this writer ends with a write that failed after these bytes, which the writer has taken.
fn is_cut<R: RandomSource + Threads + Wait + Sync>(
    rt: &R,
    alloc: Global,
    job: &Job,
    input: &[u8],
    mut writer: Narrow,
    wanted: &[u8],
) -> bool
    requires { IsBuiltFor job.now }
{
    let done = perform(rt, alloc, *job, input, &mut writer, rt);
    cut_at(&done) == Some(wanted.len() as u64) && writer.taken.as_slice() == wanted
}

/// The first room of a writer at which a job that writes this text to it ends otherwise: if the writer then fails, or
/// takes nothing more; or, with room for all, if its flush fails.
fn wrong_room<R: RandomSource + Threads + Wait + Sync>(
    rt: &R,
    alloc: Global,
    job: &Job,
    input: &[u8],
    text: &[u8],
) -> Option<usize>
    requires { IsBuiltFor job.now }
{
    for room in 0..text.len() {
        let fails = Narrow::new(alloc, room, Then::FailsOnce);
        let stops = Narrow::new(alloc, room, Then::TakesNothing);
        let wanted = &text[..room];
        if !is_cut(rt, alloc, job, input, fails, wanted)
            || !is_cut(rt, alloc, job, input, stops, wanted)
        {
            return Some(room);
        }
    }
    if is_cut(rt, alloc, job, input, Narrow::unflushed(alloc), text) {
        None
    } else {
        Some(text.len())
    }
}

/// Whether a job of this text ends so at each room.
fn is_cut_anywhere<R: RandomSource + Threads + Wait + Sync>(
    rt: &R,
    alloc: Global,
    job: Option<Job>,
    input: &[u8],
    text: &[u8],
) -> bool {
    match job {
        Some(job) if is_built(&job) => wrong_room(rt, alloc, &job, input, text).is_none(),
        _ => false,
    }
}

fn replay_of(kind: Kind, width: u32) -> Option<Job> {
    Some(Job::Replay(Net::new(kind, width).ok()?))
}

fn run_of(asked: serving::Asked, form: Form) -> Option<Job> {
    Some(Job::Run(options_of(asked, form)?))
}

/// The place of the first of these runs whose text is not cut so.
fn wrong_run<R: RandomSource + Threads + Wait + Sync>(
    rt: &R,
    alloc: Global,
    rows: &[serving::Row],
    form: Form,
) -> Option<usize> {
    for (place, (asked, batch, text)) in rows.iter().enumerate() {
        if !is_cut_anywhere(rt, alloc, run_of(*asked, form), batch, text) {
            return Some(place);
        }
    }
    None
}

/// A check of a list that is not a large one, by this width.
fn check_of(width: u32) -> Option<Job> {
    Some(Job::Check(width))
}

/// The place of the first check whose text is not cut so.
fn wrong_check<R: RandomSource + Threads + Wait + Sync>(rt: &R, alloc: Global) -> Option<usize> {
    for (place, (list, text)) in checking::TIGHT.iter().enumerate() {
        if !is_cut_anywhere(rt, alloc, check_of(4), list, text) {
            return Some(place);
        }
    }
    None
}

/// Whether the text of a replay is cut so.
fn is_replay_cut<R: RandomSource + Threads + Wait + Sync>(
    rt: &R,
    alloc: Global,
    row: &replaying::Row,
) -> Option<bool> {
    let (kind, width, schedule, text) = *row;
    let schedule = joined(alloc, schedule).ok()?;
    let text = joined(alloc, text).ok()?;
    let job = replay_of(kind, width);
    Some(is_cut_anywhere(rt, alloc, job, &schedule, &text))
}

/// The place of the first replay whose text is not cut so.
fn wrong_replay<R: RandomSource + Threads + Wait + Sync>(rt: &R, alloc: Global) -> Option<usize> {
    for (place, row) in replaying::ROWS.iter().enumerate() {
        if is_replay_cut(rt, alloc, row) != Some(true) {
            return Some(place);
        }
    }
    None
}

/// Whether the text of a wiring is cut so.
fn is_wiring_cut<R: RandomSource + Threads + Wait + Sync>(rt: &R, alloc: Global) -> bool {
    let Ok(net) = Net::new(Kind::Tree, 4) else {
        return false;
    };
    is_cut_anywhere(rt, alloc, Some(Job::Show(net)), b"", showing::TREE_FOUR)
}

#[test]
fn write_cut_anywhere(rt: HostRuntime) {
    let alloc = rt.alloc();
    let wrong = [
        wrong_run(&rt, alloc, &serving::ROWS, Form::Report),
        wrong_run(&rt, alloc, &grants_form::ROWS, Form::Grants),
        wrong_check(&rt, alloc),
        wrong_replay(&rt, alloc),
    ];
    assert_eq!(rt; (wrong, is_wiring_cut(&rt, alloc)), ([None; 4], true));
}

/// At which record a read failed, if that is what a job ended with.
fn read_at(done: &Result<(), Fault>) -> Option<u64> {
    let Err(fault) = done else {
        return None;
    };
    match fault {
        Fault::Serve(
            ServeFault::Batch(
                BatchFault {
                    at,
                    cause: BatchCause::Read,
                },
            ),
        ) => Some(*at),
        Fault::Replay(
            ReplayFault::Schedule(
                ScheduleFault {
                    at,
                    cause: ScheduleCause::Read,
                },
            ),
        ) => Some(*at),
        Fault::Check(CheckFault::Flaw(Flaw::Read(at))) => Some(*at),
        _ => None,
    }
}

/// Whether a job whose reader gives so many lines and then fails ends with that read, and writes nothing.
fn is_unread<R: RandomSource + Threads + Wait + Sync>(
    rt: &R,
    alloc: Global,
    job: &Job,
    left: &[u8],
    lines: u64,
) -> bool
    requires { IsBuiltFor job.now }
{
    let mut writer = Narrow::new(alloc, usize::MAX, Then::TakesNothing);
    let done = perform(rt, alloc, *job, Broken { left }, &mut writer, rt);
    read_at(&done) == Some(lines) && writer.taken.is_empty() && writer.flushes == 0
}

/// How many lines of an input are read so before a read that fails, and whether all are.
fn lines_read<R: RandomSource + Threads + Wait + Sync>(
    rt: &R,
    alloc: Global,
    job: &Job,
    input: &[u8],
) -> (u64, bool)
    requires { IsBuiltFor job.now }
{
    let mut lines = 0u64;
    for end in 0..=input.len() {
        let left = &input[..end];
        if left.is_empty() || left.ends_with(b"\n") {
            if !is_unread(rt, alloc, job, left, lines) {
                return (lines, false);
            }
            lines = lines.saturating_add(1);
        }
    }
    (lines, true)
}

/// The same, of a job that there is.
fn read_by<R: RandomSource + Threads + Wait + Sync>(
    rt: &R,
    alloc: Global,
    job: Option<Job>,
    input: &[u8],
) -> Option<(u64, bool)> {
    match job {
        Some(job) if is_built(&job) => Some(lines_read(rt, alloc, &job, input)),
        _ => None,
    }
}

#[test]
fn read_cut_anywhere(rt: HostRuntime) {
    let alloc = rt.alloc();
    let run = run_of(serving::BITONIC_FOUR, Form::Report);
    let replay = replay_of(Kind::Bitonic, 2);
    let lines = [
        read_by(&rt, alloc, run, serving::FIVE_ON_ONE_ENTRY),
        read_by(&rt, alloc, replay, replaying::TWO_CLIENTS),
        read_by(&rt, alloc, check_of(4), checking::TWO_EPOCHS),
    ];
    let wanted = [Some((7, true)), Some((8, true)), Some((5, true))];
    assert_eq!(rt; lines, wanted);
}
