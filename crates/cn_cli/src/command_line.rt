//! The command line as clap is given it.

ghost use Rattle.std.specs.Prelude.{◌≡◌, false, true, IfOk, IsOkAnd, option_map};
ghost use Rattle.clap.specs.Words.{app_of, new_app, rule_of, with_rule, with_subcommand};
ghost use Rattle.cn_cli.specs.CommandLine.{check_words, command_line, flag_rule, network_words, option_rule};
ghost use Rattle.cn_cli.specs.CommandLine.{renamer_words, run_with_values, run_words};

use crate::brief::{self, Brief, VERSION};
use crate::help::{self, HelpTexts};
use clap::{Arg, ArgAction, Command};
use std::alloc::{AllocError, Global};

/// A command that is put together step by step, or a want of memory at one of the steps.
type Draft<'a> = Result<Command<'a>, AllocError>;

/// An option with one value, which has to be given if it has no default.
fn option<'a>(
    alloc: Global,
    name: &'a str,
    value: &'a str,
    default: Option<&'a str>,
    help: &'a str,
) -> Arg<'a>
    ensures rule { rule_of result
        ≡ option_rule (option_map (λ text. text.now) default.entry) name.entry.now }
    ensures local { result.global ≡ false }
{
    let arg = Arg::new(alloc, name)
        .long(name)
        .value_name(value)
        .help(help);
    match default {
        Some(default) => arg.default_value(default),
        None => arg.required(true),
    }
}

/// An option that has no word.
fn flag<'a>(alloc: Global, name: &'a str, help: &'a str) -> Arg<'a>
    ensures rule { rule_of result ≡ flag_rule name.entry.now }
    ensures local { result.global ≡ false }
{
    Arg::new(alloc, name)
        .long(name)
        .action(ArgAction::SetTrue)
        .help(help)
}

/// The command with one more option, if it got its memory so far. It takes a draft, so that a caller that adds
/// several has one end only.
fn with_option<'a>(
    command: Draft<'a>,
    alloc: Global,
    name: &'a str,
    value: &'a str,
    default: Option<&'a str>,
    help: &'a str,
) -> Draft<'a>
    ensures { IfOk result (λ whole. IsOkAnd command.entry (λ before. app_of whole ≡ with_rule (app_of before)
        (option_rule (option_map (λ text. text.now) default.entry) name.entry.now))) }
{
    command?.arg(option(alloc, name, value, default, help))
}

/// The command with one more flag, if it got its memory so far.
fn with_flag<'a>(command: Draft<'a>, alloc: Global, name: &'a str, help: &'a str) -> Draft<'a>
    ensures { IfOk result (λ whole. IsOkAnd command.entry (λ before.
        app_of whole ≡ with_rule (app_of before) (flag_rule name.entry.now))) }
{
    command?.arg(flag(alloc, name, help))
}

/// A command of this name with the texts of its help, which change nothing of what it reads.
fn described_command<'a>(alloc: Global, name: &'a str, brief: Brief, long: &'a str) -> Command<'a>
    ensures { app_of result ≡ new_app name.entry.now }
{
    Command::new(alloc, name)
        .override_usage(brief.usage)
        .about(brief.about)
        .after_help(brief.end)
        .after_long_help(long)
}

/// A subcommand on a network of some width.
fn network_command<'a>(
    alloc: Global,
    name: &'a str,
    brief: Brief,
    long: &'a str,
    help: &'a HelpTexts,
) -> Draft<'a>
    ensures { IfOk result (λ command. app_of command ≡ network_words name.entry.now) }
{
    let kinds = "The kind of network: bitonic, periodic or tree";
    let command = Ok(described_command(alloc, name, brief, long));
    let command = with_option(command, alloc, "network", "N", None, kinds);
    with_option(command, alloc, "width", "W", None, &help.width)
}

/// The subcommand `run`.
fn run_command<'a>(alloc: Global, help: &'a HelpTexts) -> Draft<'a>
    ensures { IfOk result (λ command. app_of command ≡ run_words) }
{
    let forms = "What is written: report (exits and names) or grants (CSV for check)";
    let carry = "Keep the counters of the network from epoch to epoch";
    let large = "Take a large batch, as far as memory goes: --help has the limits";
    let together =
        "All workers walk each epoch at once, on one network: to test and measure threads";
    let command = network_command(alloc, "run", brief::RUN, &help.run, help);
    let command = with_option(command, alloc, "workers", "K", Some("1"), &help.workers);
    let command = with_option(command, alloc, "hand", "H", Some("1"), &help.hand);
    let command = with_option(command, alloc, "form", "F", Some("report"), forms);
    let command = with_flag(command, alloc, "carry", carry);
    let command = with_flag(command, alloc, "large", large);
    with_flag(command, alloc, "together", together)
}

/// The subcommand `check`.
fn check_command<'a>(alloc: Global, help: &'a HelpTexts) -> Draft<'a>
    ensures { IfOk result (λ command. app_of command ≡ check_words) }
{
    let large = "Take a large list, as far as memory goes: --help has the limits";
    let command = Ok(described_command(alloc, "check", brief::CHECK, &help.check));
    let command = with_option(command, alloc, "width", "W", None, &help.divisor);
    with_flag(command, alloc, "large", large)
}

/// The program's name and version. It has no subcommand yet, of which one has to be given.
fn renamer_command<'a>(alloc: Global) -> Command<'a>
    ensures { app_of result ≡ renamer_words }
{
    described_command(alloc, "renamer", brief::RENAMER, help::RENAMER)
        .subcommand_required(true)
        .arg_required_else_help(true)
        .version(VERSION)
}

/// The command with one more subcommand, if this got its memory.
fn with<'a>(command: Command<'a>, subcommand: Draft<'a>) -> Draft<'a>
    requires { IfOk subcommand (λ made. (app_of made).top.is_plain ≡ true) }
    ensures { IfOk result (λ whole. IsOkAnd subcommand.entry (λ made.
        app_of whole ≡ with_subcommand (app_of command.entry) (app_of made).top)) }
{
    command.subcommand(subcommand?)
}

/// The whole command line, with each of its subcommands.
pub(crate) fn command<'a>(alloc: Global, help: &'a HelpTexts) -> Draft<'a>
    ensures { IfOk result (λ command. app_of command ≡ command_line) }
{
    let renamer = renamer_command(alloc);
    let renamer = with(renamer, run_command(alloc, help))?;
    let replay = network_command(alloc, "replay", brief::REPLAY, &help.replay, help);
    let renamer = with(renamer, replay)?;
    let renamer = with(renamer, check_command(alloc, help))?;
    let show = network_command(alloc, "show", brief::SHOW, help::SHOW, help);
    with(renamer, show)
}
