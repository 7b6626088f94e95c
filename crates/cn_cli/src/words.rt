//! The words of a command line, and the job that they ask for.

ghost use Rattle.std.specs.Prelude.{◌≡◌, ◌≢◌, IfErr, IfOk, MatchResult, map, string_bytes};
ghost use Rattle.clap.specs.Words.{found_of, kind_of, rows_of, subcommand_rows_of};
ghost use Rattle.cn_cli.specs.Plain.{RefusesPlainly};
ghost use Rattle.cn_cli.specs.Words.{Asks, AsksNone, IsFaultBy, IsFaultOf, IsJobOf, IsRefusalBy, asked_check};
ghost use Rattle.cn_cli.specs.Words.{IsRefusalOf, status_of_words};
ghost use Rattle.cn_cli.specs.declared.choices.ChoiceFault.TheVariants as choice;
ghost use Rattle.cn_cli.specs.declared.words.WordsFault.TheVariants.{Memory};

use crate::choices::{ChoiceFault, chosen_net, chosen_options, chosen_width, has_flag};
use crate::command_line::command;
use crate::help::HelpTexts;
use crate::hint::{plain, with_hint};
use crate::options::Options;
use clap::error::ErrorKind;
use clap::{ArgMatches, Command};
use cn_nets::Net;
use std::alloc::{AllocError, Global};
use thiserror::Error;

/// What the words ask for.
#[derive(Clone, Copy, Debug, PartialEq, Eq)]
pub enum Job {
    /// Read a batch, give each epoch's clients their names, and write what these options ask for.
    Run(Options),
    /// Read a schedule, and write what a core of this network answers.
    Replay(Net),
    /// Read a grant list, and if it is tight write how many names of each epoch fall to each exit of this width.
    Check(u32),
    /// Write where each wire of this network ends.
    Show(Net),
    /// Read a grant list that may be a large one, and write of it what a check does, by this width.
    CheckLarge(u32),
}

/// Why the words ask for no job. Each is shown by its text.
#[derive(Debug, Drop, Error)]
pub enum WordsFault {
    /// They ask for help, or for the version, which is the text.
    #[error("{0}")]
    Help(String),
    /// They are no command line of the program, as the text says.
    #[error("{0}")]
    Refused(String),
    /// There is not the memory to read them.
    #[error("renamer: memory")]
    Memory,
}

impl From<AllocError> for WordsFault {
    ghost from_gives = { λ _ fault. fault ≡ Memory };

    fn from(_e: AllocError) -> WordsFault {
        WordsFault::Memory
    }
}

impl WordsFault {
    /// The status with which the program ends: 0 for help and the version, 2 for words that are
    /// refused, 3 for want of memory.
    pub fn status(&self) -> u8
        ensures { result ≡ status_of_words self.now }
    {
        match self {
            WordsFault::Help(_) => 0,
            WordsFault::Refused(_) => 2,
            WordsFault::Memory => 3,
        }
    }

    /// What is said of words that clap does not take, or of a request for help.
    fn of_parse(alloc: Global, words: &[String], error: clap::Error) -> WordsFault
        ensures { IsFaultBy (kind_of error) result }
    {
        let kind = error.kind();
        match error.to_string(alloc) {
            Ok(text) if !error.use_stderr() => WordsFault::Help(text),
            Ok(text) if kind != ErrorKind::OutOfMemory => match with_hint(alloc, words, text) {
                Ok(text) => WordsFault::Refused(text),
                Err(_) => WordsFault::Memory,
            },
            _ => WordsFault::Memory,
        }
    }

    /// What is said of words that clap takes and the choice of a job refuses.
    fn of_choice(alloc: Global, fault: ChoiceFault<'_>) -> WordsFault
        ensures { IsRefusalBy fault.entry result }
    {
        if let ChoiceFault::Memory = fault {
            return WordsFault::Memory;
        }
        match format!(in alloc; "{fault}\n") {
            Ok(text) => WordsFault::Refused(text),
            Err(_) => WordsFault::Memory,
        }
    }
}

/// The check that the options ask for.
fn chosen_check<'a>(alloc: Global, options: &ArgMatches<'a>) -> Result<Job, ChoiceFault<'a>>
    ensures { let asked = asked_check (rows_of (found_of options.now)) in
        MatchResult result (Asks asked) (λ fault. fault ≢ choice.Memory → AsksNone asked) }
{
    let width = chosen_width(alloc, options)?;
    if has_flag(options, "large") {
        Ok(Job::CheckLarge(width))
    } else {
        Ok(Job::Check(width))
    }
}

/// The job that a subcommand with its options asks for.
fn chosen_job<'a>(alloc: Global, matches: &ArgMatches<'a>) -> Result<Job, ChoiceFault<'a>>
    ensures { let asked = subcommand_rows_of matches.now in
        MatchResult result (Asks asked) (λ fault. fault ≢ choice.Memory → AsksNone asked) }
{
    let Some((name, options)) = matches.subcommand() else {
        return Err(ChoiceFault::Subcommand);
    };
    match name {
        "run" => chosen_options(alloc, options).map(Job::Run),
        "replay" => chosen_net(alloc, options).map(Job::Replay),
        "check" => chosen_check(alloc, options),
        "show" => chosen_net(alloc, options).map(Job::Show),
        _ => Err(ChoiceFault::Subcommand),
    }
}

/// The job that words ask for which clap took.
fn asked_job(alloc: Global, matches: &ArgMatches<'_>) -> Result<Job, WordsFault>
    ensures { let asked = subcommand_rows_of matches.now in
        MatchResult result (Asks asked) (IsRefusalOf asked) }
{
    match chosen_job(alloc, matches) {
        Ok(job) => Ok(job),
        Err(fault) => Err(WordsFault::of_choice(alloc, fault)),
    }
}

/// The job that words ask for, with these texts of help.
fn read_words<'a>(
    alloc: Global,
    words: &'a [String],
    help: &'a HelpTexts,
) -> Result<Job, WordsFault>
    ensures { let texts = map string_bytes words.entry.now in
        MatchResult result (IsJobOf texts) (IsFaultOf texts) }
{
    let command: Command<'a> = command(alloc, help)?;
    match command.try_get_matches_from(words) {
        Ok(matches) => asked_job(alloc, &matches),
        Err(error) => Err(WordsFault::of_parse(alloc, words, error)),
    }
}

/// The job that the words ask for, by the command line as clap reads it. The first word is the
/// program's name.
///
/// # Errors
/// `WordsFault::Help` for a request for help or for the version; `WordsFault::Refused` for words that clap
/// does not take, or that name what is not built or is outside its limits, and its text has no control byte but line
/// feeds; `WordsFault::Memory` if a growth was refused.
pub fn parse_words(alloc: Global, words: Vec<String>) -> Result<Job, WordsFault>
    ensures ok { IfOk result (IsJobOf (map string_bytes words.items)) }
    ensures err { IfErr result (IsFaultOf (map string_bytes words.items)) }
    ensures plain { IfErr result RefusesPlainly }
{
    let help = HelpTexts::new(alloc)?;
    match read_words(alloc, words.as_slice(), &help) {
        Err(WordsFault::Refused(text)) => Err(WordsFault::Refused(plain(alloc, text))),
        Err(WordsFault::Help(text)) => Err(WordsFault::Help(text)),
        Err(WordsFault::Memory) => Err(WordsFault::Memory),
        Ok(job) => Ok(job),
    }
}
