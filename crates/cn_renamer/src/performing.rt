//! The job that the words ask for, done.

ghost use Rattle.std.specs.Prelude.{◌≡◌, Err, IfErr, List, Option, is_some, map, string_bytes, ℕ};
ghost use Rattle.cn_texts.specs.Writing.Written.{HasWritten, written_by};
ghost use Rattle.cn_renamer.specs.Outputs.{until_output};
ghost use Rattle.cn_renamer.specs.Performing.{HasRun, IsBuiltFor, IsTextAsked, IsTextOf, MayEnd, MayEndAsked, until_fault};

use crate::checking::{check, check_within};
use crate::fault::Fault;
use crate::output_fault::OutputFault;
use crate::replaying::replay;
use crate::serving::serve_with_receipts;
use crate::showing::show;
use cn_cli::{Job, Options, WordsFault, parse_words};
use cn_floor::OpenGate;
use cn_texts::emit;
use std::alloc::Global;
use std::hash::RandomState;
use std::io::{Read, Write};
use std::random::RandomSource;
use std::sync::Wait;
use std::thread::Threads;

/// The gate of a run: if its workers are to walk each epoch together it has one, which lets each step go.
fn gate_of<'g>(options: &Options, gate: &'g OpenGate) -> Option<&'g OpenGate>
    ensures { is_some result ≡ options.now.together }
{
    if options.walks_together() {
        Some(gate)
    } else {
        None
    }
}

/// Does a job: reads what it reads, and writes its text. Random words are asked for only by a run and a replay, and
/// threads only by a run of more than one worker. Of a run one worker walks each epoch, or all walk it together if the
/// options say so.
///
/// The width of a check is one that networks have ([`cn_wiring::is_width`]), as [`parse_words`] answers it.
///
/// # Errors
/// That of the job's own call; or that of the source of random words, and then nothing was written.
pub fn perform<I: Read + Drop, W: Write, S: RandomSource, R: Threads + Wait + Sync>(
    rt: &R,
    alloc: Global,
    job: Job,
    reader: I,
    writer: &mut W,
    source: &S,
) -> Result<(), Fault>
    requires { IsBuiltFor job }
    ensures written { let Is = IsTextOf job (I.remaining reader) in
        HasWritten W.contents Is (written_by until_fault result) writer.old writer.new }
    ensures ends { IfErr result (MayEnd job (I.remaining reader)) }
{
    match job {
        Job::Run(options) => {
            let state = RandomState::new(source)?;
            let gate = gate_of(&options, &OpenGate);
            serve_with_receipts(rt, alloc, reader, writer, &options, state, gate)?;
            Ok(())
        }
        Job::Replay(net) => {
            let state = RandomState::new(source)?;
            Ok(replay(alloc, reader, writer, &net, state)?)
        }
        Job::Check(width) => Ok(check(alloc, reader, writer, width)?),
        Job::CheckLarge(width) => Ok(check_within(alloc, reader, writer, width, true)?),
        Job::Show(net) => Ok(show(alloc, writer, &net)?),
    }
}

/// Writes a text whole.
///
/// # Errors
/// `Write` if a write or the flush at the end failed: the bytes that were written are the first of the text.
fn write_text<W: Write>(writer: &mut W, text: &[u8]) -> Result<(), OutputFault>
    ensures { HasWritten W.contents (λ written. written
        ≡ text.now) (written_by until_output result) writer.old writer.new }
{
    emit(writer, text)?;
    Ok(())
}

/// Ends without a job: help or the version is written, and any other fault of the words is returned.
fn end_without_job<W: Write>(writer: &mut W, fault: WordsFault) -> Result<(), Fault>
    ensures written { (known : Option (List ℕ)) →
        HasWritten W.contents (IsTextAsked (Err fault) known) (written_by until_fault result) writer.old writer.new }
    ensures ends { (known : Option (List ℕ)) → IfErr result (MayEndAsked (Err fault) known) }
{
    match fault {
        WordsFault::Help(help) => Ok(write_text(writer, help.as_bytes())?),
        WordsFault::Refused(text) => Err(Fault::Refused(text)),
        WordsFault::Memory => Err(Fault::Output(OutputFault::Memory)),
    }
}

/// Does what the words of a command line ask for: a job, or to write the help or the version. The first word is the
/// program's name.
///
/// # Errors
/// `Refused` if the words ask for nothing, and then nothing was written; else the fault of the job, or of writing the
/// help or the version.
pub fn run<I: Read + Drop, W: Write, S: RandomSource, R: Threads + Wait + Sync>(
    rt: &R,
    alloc: Global,
    words: Vec<String>,
    reader: I,
    writer: &mut W,
    source: &S,
) -> Result<(), Fault>
    ensures { let texts = map string_bytes words.items in
        HasRun texts (I.remaining reader) W.contents writer.old writer.new result }
{
    match parse_words(alloc, words) {
        Ok(job) => perform(rt, alloc, job, reader, writer, source),
        Err(fault) => end_without_job(writer, fault),
    }
}
