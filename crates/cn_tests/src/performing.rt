//! Jobs, done as the program does them, and the program's end.

ghost use Rattle.std.specs.Prelude.{IsTrue};
ghost use Rattle.cn_renamer.specs.Performing.{IsBuiltFor};

use crate::job_texts::{
    BATCH, BATCH_ON_BITONIC_TWO, GRANTS, GRANTS_OF_WIDTH_TWO, ONE_CLIENT,
    ONE_CLIENT_ON_BITONIC_FOUR, ONE_CLIENT_ON_PERIODIC_TWO, ONE_CLIENT_ON_TREE_FOUR, TREE_TWO,
};
use crate::writers::{Narrow, Then};
use cn_cli::{Form, Job, Options};
use cn_nets::Net;
use cn_renamer::{Fault, end, perform};
use cn_wiring::{Kind, is_width};
use std::alloc::Global;
use std::io;
use std::random::RandomSource;
use std::sync::Wait;
use std::thread::Threads;

/// A source of random words: one word again and again, or a failure.
#[derive(Drop)]
pub(crate) struct Words {
    fault: Option<io::ErrorKind>,
}

impl RandomSource for Words {
    fn fill_bytes(&self, buffer: &mut [u8]) -> io::Result<()> {
        match self.fault {
            Some(kind) => Err(io::Error::from(kind)),
            None => {
                buffer.fill(7);
                Ok(())
            }
        }
    }
}

/// A job by its words.
#[derive(Clone, Copy, Debug, PartialEq, Eq)]
enum Asked {
    Run,
    Replay,
    Check,
    Show,
}

fn job(asked: Asked, kind: Kind, width: u32) -> Option<Job> {
    let net = Net::new(kind, width).ok()?;
    Some(match asked {
        Asked::Run => Job::Run(Options::new(net, 1, 1, Form::Report).ok()?),
        Asked::Replay => Job::Replay(net),
        Asked::Check => Job::Check(width),
        Asked::Show => Job::Show(net),
    })
}

/// Whether networks of a job's width are built.
pub(crate) fn is_built(job: &Job) -> bool
    ensures { IsTrue result → IsBuiltFor job.now }
{
    match job {
        Job::Check(width) | Job::CheckLarge(width) => is_width(*width),
        Job::Run(_) | Job::Replay(_) | Job::Show(_) => true,
    }
}

/// The input of a job: a batch, a schedule or a grant list.
fn input_of(job: &Job) -> &'static [u8] {
    match job {
        Job::Run(_) => BATCH,
        Job::Check(_) | Job::CheckLarge(_) => GRANTS,
        Job::Replay(_) | Job::Show(_) => ONE_CLIENT,
    }
}

/// What a job is given: a writer, and a source of random words.
#[derive(Clone, Copy, Debug, PartialEq, Eq)]
pub(crate) enum Given {
    All,
    NoWords(io::ErrorKind),
    NoFlush,
    /// Room for so many bytes, and then one write that fails.
    Room(usize),
}

pub(crate) fn writer_of(alloc: Global, given: Given) -> Narrow {
    match given {
        Given::All | Given::NoWords(_) => Narrow::new(alloc, 100_000, Then::TakesNothing),
        Given::NoFlush => Narrow::unflushed(alloc),
        Given::Room(room) => Narrow::new(alloc, room, Then::FailsOnce),
    }
}

pub(crate) fn source_of(given: Given) -> Words {
    match given {
        Given::NoWords(kind) => Words { fault: Some(kind) },
        _ => Words { fault: None },
    }
}

/// A job of a kind and a width, what it is given, what it writes, its status, and the line that is printed of its
/// fault.
type Row = (Asked, Kind, u32, Given, &'static [u8], u8, &'static [u8]);

/// A run and a replay want random words, and a check does without them; and a flush that fails is a write that fails.
const ROWS: [Row; 16] = [
    (
        Asked::Replay,
        Kind::Bitonic,
        4,
        Given::All,
        ONE_CLIENT_ON_BITONIC_FOUR,
        0,
        b"",
    ),
    (
        Asked::Replay,
        Kind::Periodic,
        2,
        Given::All,
        ONE_CLIENT_ON_PERIODIC_TWO,
        0,
        b"",
    ),
    (
        Asked::Replay,
        Kind::Tree,
        4,
        Given::All,
        ONE_CLIENT_ON_TREE_FOUR,
        0,
        b"",
    ),
    (Asked::Show, Kind::Tree, 2, Given::All, TREE_TWO, 0, b""),
    (
        Asked::Run,
        Kind::Bitonic,
        2,
        Given::All,
        BATCH_ON_BITONIC_TWO,
        0,
        b"",
    ),
    (
        Asked::Check,
        Kind::Bitonic,
        2,
        Given::All,
        GRANTS_OF_WIDTH_TWO,
        0,
        b"",
    ),
    (
        Asked::Replay,
        Kind::Tree,
        2,
        Given::NoWords(io::ErrorKind::Unsupported),
        b"",
        3,
        b"renamer: runtime\n",
    ),
    (
        Asked::Replay,
        Kind::Tree,
        2,
        Given::NoWords(io::ErrorKind::OutOfMemory),
        b"",
        3,
        b"renamer: memory\n",
    ),
    (
        Asked::Run,
        Kind::Bitonic,
        2,
        Given::NoWords(io::ErrorKind::Unsupported),
        b"",
        3,
        b"renamer: runtime\n",
    ),
    (
        Asked::Show,
        Kind::Tree,
        2,
        Given::NoWords(io::ErrorKind::Unsupported),
        TREE_TWO,
        0,
        b"",
    ),
    (
        Asked::Check,
        Kind::Bitonic,
        2,
        Given::NoWords(io::ErrorKind::Unsupported),
        GRANTS_OF_WIDTH_TWO,
        0,
        b"",
    ),
    (
        Asked::Replay,
        Kind::Bitonic,
        4,
        Given::NoFlush,
        ONE_CLIENT_ON_BITONIC_FOUR,
        3,
        b"renamer: write after 124 bytes\n",
    ),
    (
        Asked::Show,
        Kind::Tree,
        2,
        Given::NoFlush,
        TREE_TWO,
        3,
        b"renamer: write after 99 bytes\n",
    ),
    (
        Asked::Run,
        Kind::Bitonic,
        2,
        Given::NoFlush,
        BATCH_ON_BITONIC_TWO,
        3,
        b"renamer: write after 131 bytes\n",
    ),
    (
        Asked::Check,
        Kind::Bitonic,
        2,
        Given::NoFlush,
        GRANTS_OF_WIDTH_TWO,
        3,
        b"renamer: write after 53 bytes\n",
    ),
    (
        Asked::Show,
        Kind::Tree,
        2,
        Given::Room(10),
        b"network tr",
        3,
        b"renamer: write after 10 bytes\n",
    ),
];

/// Whether an end prints this line and has this status.
pub(crate) fn ends_with(alloc: Global, done: &Result<(), Fault>, line: &[u8], status: u8) -> bool {
    let mut errors = Narrow::new(alloc, 1_000, Then::TakesNothing);
    end(done, &mut errors) == status && errors.taken.as_slice() == line
}

/// Whether a job is done as its row says.
fn is_done<R: Threads + Wait + Sync>(rt: &R, alloc: Global, job: Job, row: &Row) -> bool
    requires { IsBuiltFor job }
{
    let (_, _, _, given, text, status, line) = *row;
    let input = input_of(&job);
    let mut writer = writer_of(alloc, given);
    let done = perform(rt, alloc, job, input, &mut writer, &source_of(given));
    writer.taken.as_slice() == text && ends_with(alloc, &done, line, status)
}

fn is_performed<R: Threads + Wait + Sync>(rt: &R, alloc: Global, row: &Row) -> Option<bool> {
    let job = job(row.0, row.1, row.2)?;
    if is_built(&job) {
        Some(is_done(rt, alloc, job, row))
    } else {
        None
    }
}

/// The place of the first row that is done otherwise.
fn wrong_row<R: Threads + Wait + Sync>(rt: &R, alloc: Global) -> Option<usize> {
    for (place, row) in ROWS.iter().enumerate() {
        if is_performed(rt, alloc, row) != Some(true) {
            return Some(place);
        }
    }
    None
}

#[test]
fn jobs_write_their_texts_and_end(rt: HostRuntime) {
    assert_eq!(rt; wrong_row(&rt, rt.alloc()), None);
}
