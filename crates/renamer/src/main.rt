//! The program: its arguments, its streams and its exit status.
#![tactic(auto)]

use cn_renamer::{Fault, end, run};
use cn_streams::{Retried, say_input, words_of};
use std::alloc::Global;
use std::env::Env;
use std::io;
use std::process::ExitCode;
use std::random::RandomSource;
use std::sync::Wait;
use std::thread::Threads;

/// Does what the words ask for, on the streams of the process.
fn run_words(
    rt: &(impl Alloc<A = Global> + Env + Input + Print + RandomSource + Threads + Wait + Sync),
) -> Result<(), Fault> {
    // The reader has a buffer of 8 KB: lent, it takes no room in the frames below.
    run(
        rt,
        rt.alloc(),
        words_of(rt)?,
        &mut Retried::new(rt.reader()),
        &mut Retried::new(io::writer(rt)),
        rt,
    )
}

/// Does the job that the words ask for, and ends with its status.
fn main(rt: HostRuntime) -> ExitCode {
    say_input(&rt);
    let done = run_words(&rt);
    ExitCode::from(end(&done, &mut rt.stderr()))
}
