//! The words with which the program was called, and what it says on a terminal.

use cn_cli::{Job, parse_words};
use std::alloc::Global;
use std::env::{self, Env};
use std::io::{self, IsTerminal, Write};

/// The words with which the program was called, its name first.
///
/// # Errors
/// What the runtime answers, if a word is not UTF-8 or memory is refused.
pub fn words_of(rt: &(impl Alloc<A = Global> + Env)) -> io::Result<Vec<String>> {
    Ok(env::args(rt)?.collect(rt.alloc())?)
}

/// What a job reads.
fn input_of(job: &Job) -> Option<&'static str> {
    match job {
        Job::Run(_) => Some("a batch"),
        Job::Replay(_) => Some("a schedule"),
        Job::Check(_) | Job::CheckLarge(_) => Some("a list of grants"),
        Job::Show(_) => None,
    }
}

/// Says on standard error what is read, if the words ask for a job that reads and standard input is a terminal.
pub fn say_input(rt: &HostRuntime) {
    if !rt.stdin().is_terminal() {
        return;
    }
    let Ok(words) = words_of(rt) else {
        return;
    };
    let Ok(job) = parse_words(rt.alloc(), words) else {
        return;
    };
    if let Some(input) = input_of(&job) {
        let _ = writeln!(
            rt.stderr(),
            "renamer: reading {input} from the terminal; Ctrl-D ends it"
        );
    }
}
