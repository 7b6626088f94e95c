//! What the options of a subcommand name.

ghost use Rattle.std.specs.Prelude.{◌≡◌, ◌≢◌, ◌<◌, ◌^◌, ℕ, IfOk, MatchOption, MatchResult, false};
ghost use Rattle.std.specs.Prelude.{decimal, option_map};
ghost use Rattle.clap.specs.Words.{first_of, found_of, rows_of};
ghost use Rattle.cn_tables.specs.declared.kind.Kind.{Kind};
ghost use Rattle.cn_tables.specs.Kinds.{kind_word};
ghost use Rattle.cn_tables.specs.Widths.{IsWidth};
ghost use Rattle.cn_cli.specs.Choices.{Flags, GivesNoNumber, GivesNumber, NamesNetwork};
ghost use Rattle.cn_cli.specs.Choices.{NamesNoNet, NamesNoRun, NamesNoWidth, NamesRun, NamesWidth, form_word};
ghost use Rattle.cn_cli.specs.Options.{SettingsFit};
ghost use Rattle.cn_cli.specs.declared.choices.ChoiceFault.TheVariants as choice;
ghost use Rattle.cn_cli.specs.declared.options.Form.{Form};

use crate::options::{Form, OptionFault, Options};
use clap::ArgMatches;
use cn_nets::{Net, NetFault, Widths};
use cn_spec::limits::{MOST_HAND, MOST_WORKERS};
use cn_wiring::{Kind, is_width};
use std::alloc::{AllocError, Global};
use thiserror::Error;

/// Why options that clap takes ask for no job.
#[derive(Clone, Copy, Debug, Error)]
pub(crate) enum ChoiceFault<'a> {
    /// They are of no subcommand that the program has.
    #[error("renamer: no such subcommand")]
    Subcommand,
    /// This word for a kind of network is of none.
    #[error("renamer: no such network {0:?}; allowed: bitonic, periodic or tree")]
    Kind(&'a str),
    /// This word for a width is of none that is built.
    #[error("renamer: no such width {:?}; allowed: {}", .0, Widths)]
    Width(&'a str),
    /// The network is not built.
    #[error("{0}")]
    Net(NetFault),
    /// This word for a number of workers is of none that is allowed.
    #[error("renamer: no such number of workers {:?}; allowed: 1 to {}", .0, MOST_WORKERS)]
    Workers(&'a str),
    /// This word for a hand is of none that is allowed.
    #[error("renamer: no such hand {:?}; allowed: 1 to {}", .0, MOST_HAND)]
    Hand(&'a str),
    /// This word for a form is of none.
    #[error("renamer: no such form {:?}; allowed: {} or {}", .0, Form::Report.word(), Form::Grants.word())]
    Form(&'a str),
    /// There is not the memory to read them.
    #[error("renamer: memory")]
    Memory,
}

impl From<NetFault> for ChoiceFault<'_> {
    ghost from_gives = { λ fault given. given ≡ choice.Net fault };

    fn from(fault: NetFault) -> Self {
        ChoiceFault::Net(fault)
    }
}

impl From<AllocError> for ChoiceFault<'_> {
    ghost from_gives = { λ _ given. given ≡ choice.Memory };

    fn from(_error: AllocError) -> Self {
        ChoiceFault::Memory
    }
}

/// The kind that a word is for.
fn kind_named(word: &str) -> Option<Kind>
    ensures { MatchOption result ((kind : Kind) → word.now ≢ kind_word kind)
        (λ kind. word.now ≡ kind_word kind) }
{
    if word == Kind::Bitonic.word() {
        Some(Kind::Bitonic)
    } else if word == Kind::Periodic.word() {
        Some(Kind::Periodic)
    } else if word == Kind::Tree.word() {
        Some(Kind::Tree)
    } else {
        None
    }
}

/// The form that a word is for.
fn form_named(word: &str) -> Option<Form>
    ensures { MatchOption result ((form : Form) → word.now ≢ form_word form)
        (λ form. word.now ≡ form_word form) }
{
    if word == Form::Report.word() {
        Some(Form::Report)
    } else if word == Form::Grants.word() {
        Some(Form::Grants)
    } else {
        None
    }
}

/// The number that a word is the decimal digits of.
fn number_named(alloc: Global, word: &str) -> Result<Option<u32>, AllocError>
    ensures { IfOk result (λ found. MatchOption found
        ((number : ℕ) → number < 2 ^ 32 → word.now ≢ decimal number)
        (λ number. (word.now ≡ decimal number) × (number < 2 ^ 32))) }
{
    let Ok(number) = word.parse::<u32>() else {
        return Ok(None);
    };
    let digits = number.to_string(alloc)?;
    if digits.as_str() == word {
        Ok(Some(number))
    } else {
        Ok(None)
    }
}

/// The word that an option has, if it was given or has a default.
fn value_of<'a>(options: &ArgMatches<'a>, name: &str) -> Option<&'a str>
    ensures { option_map (λ value. value.now) result
        ≡ first_of name.now (rows_of (found_of options.now)) }
{
    options.get_str(name)
}

/// The word that a fault of an option shows.
fn word_of<'a>(options: &ArgMatches<'a>, name: &str) -> &'a str {
    value_of(options, name).unwrap_or("")
}

/// Whether a flag stands among the options.
pub(crate) fn has_flag(options: &ArgMatches<'_>, name: &str) -> bool
    ensures { Flags (rows_of (found_of options.now)) name.now result }
{
    match value_of(options, name) {
        Some(value) => value == "true",
        None => false,
    }
}

/// The number that an option has for its value.
fn chosen_number(
    alloc: Global,
    options: &ArgMatches<'_>,
    name: &str,
) -> Result<Option<u32>, AllocError>
    ensures { let given = rows_of (found_of options.now) in
        IfOk result (λ found. MatchOption found (GivesNoNumber given name.now)
        (GivesNumber given name.now)) }
{
    match value_of(options, name) {
        Some(word) => number_named(alloc, word),
        None => Ok(None),
    }
}

/// The width that the options name.
pub(crate) fn chosen_width<'a>(
    alloc: Global,
    options: &ArgMatches<'a>,
) -> Result<u32, ChoiceFault<'a>>
    ensures { let given = rows_of (found_of options.now) in
        MatchResult result (λ width. NamesWidth given width × IsWidth width)
        (λ fault. fault ≢ choice.Memory → NamesNoWidth given) }
{
    let Some(width) = chosen_number(alloc, options, "width")? else {
        return Err(ChoiceFault::Width(word_of(options, "width")));
    };
    if is_width(width) {
        Ok(width)
    } else {
        Err(ChoiceFault::Width(word_of(options, "width")))
    }
}

/// The network that the options name.
pub(crate) fn chosen_net<'a>(
    alloc: Global,
    options: &ArgMatches<'a>,
) -> Result<Net, ChoiceFault<'a>>
    ensures { let given = rows_of (found_of options.now) in
        MatchResult result (λ net. NamesNetwork given net × IsWidth net.width)
        (λ fault. fault ≢ choice.Memory → NamesNoNet given) }
{
    let width = chosen_width(alloc, options)?;
    match value_of(options, "network").and_then(kind_named) {
        Some(kind) => Ok(Net::new(kind, width)?),
        None => Err(ChoiceFault::Kind(word_of(options, "network"))),
    }
}

/// The fault of options of a run, with the word that it refuses.
fn refused<'a>(options: &ArgMatches<'a>, fault: OptionFault) -> ChoiceFault<'a>
    ensures { result ≢ choice.Memory }
{
    match fault {
        OptionFault::Workers => ChoiceFault::Workers(word_of(options, "workers")),
        OptionFault::Hand => ChoiceFault::Hand(word_of(options, "hand")),
    }
}

/// The run, which carries counters if that is asked for.
fn with_carry(run: Options, carry: bool) -> Options
    requires { run.carry ≡ false }
    ensures { result ≡ record run { carry = carry } }
{
    if carry { run.carried() } else { run }
}

/// The run, whose batch may be large if that is asked for.
fn with_large(run: Options, large: bool) -> Options
    requires { run.large ≡ false }
    ensures { result ≡ record run { large = large } }
{
    if large { run.enlarged() } else { run }
}

/// The run, whose workers walk each epoch together if that is asked for.
fn with_together(run: Options, together: bool) -> Options
    requires { run.together ≡ false }
    ensures { result ≡ record run { together = together } }
{
    if together { run.walked_together() } else { run }
}

/// The options of a run.
pub(crate) fn chosen_options<'a>(
    alloc: Global,
    options: &ArgMatches<'a>,
) -> Result<Options, ChoiceFault<'a>>
    ensures { let given = rows_of (found_of options.now) in
        MatchResult result (λ settings. NamesRun given settings × SettingsFit settings)
        (λ fault. fault ≢ choice.Memory → NamesNoRun given) }
{
    let net = chosen_net(alloc, options)?;
    let Some(workers) = chosen_number(alloc, options, "workers")? else {
        return Err(refused(options, OptionFault::Workers));
    };
    let Some(hand) = chosen_number(alloc, options, "hand")? else {
        return Err(refused(options, OptionFault::Hand));
    };
    let Some(form) = value_of(options, "form").and_then(form_named) else {
        return Err(ChoiceFault::Form(word_of(options, "form")));
    };
    match Options::new(net, workers, hand, form) {
        Ok(run) => {
            let run = with_carry(run, has_flag(options, "carry"));
            let run = with_large(run, has_flag(options, "large"));
            Ok(with_together(run, has_flag(options, "together")))
        }
        Err(fault) => Err(refused(options, fault)),
    }
}
