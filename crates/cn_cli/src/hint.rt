//! What a refusal by clap says beside clap's own text, and that a terminal takes no text for a command.

ghost use Rattle.std.specs.Prelude.{IsTrue, ◌↔◌, string_bytes};
ghost use Rattle.cn_cli.specs.Plain.{IsPlain};

use std::alloc::{AllocError, Global};

/// What clap says of a word that nothing takes begins so. After it come the word and a quote.
const UNEXPECTED: &str = "error: unexpected argument '";

/// What clap says of a word that is no job begins so, and goes on likewise.
const UNRECOGNIZED: &str = "error: unrecognized subcommand '";

/// What clap says if options are missing begins so.
const MISSING: &str = "error: the following required arguments were not provided:";

/// The word that clap's text names after this beginning.
fn named_after<'a>(text: &'a str, beginning: &str) -> Option<&'a str> {
    let (word, _) = text.strip_prefix(beginning)?.split_once('\'')?;
    Some(word)
}

/// What a job does, and how it is called with the options that it wants.
fn call_of(job: &str) -> Option<&'static str> {
    match job {
        "run" => Some("To number a batch: renamer run --network tree --width 2 < FILE"),
        "replay" => Some("To replay a schedule: renamer replay --network tree --width 2 < FILE"),
        "check" => Some("To check a list of grants: renamer check --width 2 < FILE"),
        "show" => Some("To show a network: renamer show --network tree --width 2"),
        _ => None,
    }
}

/// What is to be written in place of an option that this job does not have, if that is known.
fn option_meant(job: &str, word: &str) -> Option<&'static str> {
    match (job, word) {
        (_, "-v" | "-V" | "--version") => Some("For the version: renamer --version"),
        (_, "-n") => Some("-n is written --network"),
        (_, "-w") => Some("-w is written --width"),
        (_, "-o") => Some("What is printed goes to standard output: renamer .. > FILE"),
        ("run", "-j") => Some("-j is written --workers"),
        ("run", "--threads") => Some("--threads is written --workers"),
        ("run", "-d" | "--column") => {
            Some("For a column of a CSV file: renamer-number --column NAME FILE")
        }
        _ => None,
    }
}

/// What may be meant by a word that clap did not expect after a job.
fn meant_by(alloc: Global, job: &str, word: &str) -> Result<Option<String>, AllocError> {
    if let Some(hint) = option_meant(job, word) {
        return Ok(Some(String::from_str(alloc, hint)?));
    }
    let hint = match word {
        "help" => format!(in alloc; "For the help of {job}: renamer help {job}")?,
        // Nothing is read for a wiring.
        _ if job == "show" => return Ok(None),
        "-" => String::from_str(alloc, "renamer reads standard input anyway: leave - out")?,
        _ if word.starts_with('-') => return Ok(None),
        _ => format!(in alloc; "renamer reads standard input: renamer {job} .. < {word}")?,
    };
    Ok(Some(hint))
}

/// What may be meant by a word that is no job.
fn job_meant(word: &str) -> Option<&'static str> {
    match word {
        "version" => Some("For the version: renamer --version"),
        "completions" => Some("Completions of bash, zsh and fish are below share, beside bin"),
        _ => None,
    }
}

/// What a refusal of this job may say beside clap's text.
fn hint_of(alloc: Global, job: &str, text: &str) -> Result<Option<String>, AllocError> {
    if let Some(word) = named_after(text, UNEXPECTED) {
        return meant_by(alloc, job, word);
    }
    let hint = if text.starts_with(MISSING) {
        call_of(job)
    } else {
        named_after(text, UNRECOGNIZED).and_then(job_meant)
    };
    match hint {
        Some(hint) => Ok(Some(String::from_str(alloc, hint)?)),
        None => Ok(None),
    }
}

/// The text of a refusal by clap, and a line more if something is known that was meant. clap shows words as they are,
/// so one with control characters, which no job has, is shown in place of its text.
pub(crate) fn with_hint(
    alloc: Global,
    words: &[String],
    text: String,
) -> Result<String, AllocError> {
    if let Some(word) = words.iter().find(|word| word.contains(char::is_control)) {
        return format!(in alloc; "renamer: a word with control characters: {word:?}\n");
    }
    let Some(job) = words.get(1) else {
        return Ok(text);
    };
    match hint_of(alloc, job, &text)? {
        Some(hint) => format!(in alloc; "{text}\n{hint}\n"),
        None => Ok(text),
    }
}

/// Whether a terminal shows a text and does no more: no byte of it is a control byte but line feeds.
fn is_plain(text: &str) -> bool
    ensures { IsTrue result ↔ IsPlain text.now }
{
    let bytes = text.as_bytes();
    bytes
        .iter()
        .all(|&byte| byte == b'\n' || byte >= 32 && byte != 127)
}

/// The text, of which a terminal takes nothing for a command. One with control bytes, which is never made, is empty.
pub(crate) fn plain(alloc: Global, text: String) -> String
    ensures { IsPlain (string_bytes result) }
{
    if is_plain(&text) {
        text
    } else {
        String::new(alloc)
    }
}
