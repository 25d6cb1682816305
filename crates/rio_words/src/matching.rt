//! Words matched by `clap`, as texts.

ghost use Rattle.std.specs.Prelude.{◌≡◌, ◌++◌, false, [], IfOk, map, drop};
ghost use Rattle.clap.specs.Words.{app_of};
ghost use Rattle.clap.specs.Simple.{with_rule};
ghost use Rattle.clap.specs.Walk.{rule_of, texts};
ghost use Rattle.rio_words.specs.Clap.{IsMatched};
ghost use Rattle.rio_words.specs.Plans.{ArePlanned, file_given, option_given, plan_app, with_rules};
ghost use Rattle.rio_words.specs.Words.{texts_of};

use crate::fail::WordsFail;
use clap::{Arg, ArgAction, ArgMatches, Command};
use std::alloc::{AllocError, Global};

/// The options and the files that words give behind the command, which is the first of them. Each option has one text as its
/// value, and each file one name.
pub fn matches_of<'a>(
    alloc: Global,
    options: &[&'a str],
    files: &[&'a str],
    words: &'a [String],
) -> Result<ArgMatches<'a>, WordsFail>
    requires { ArePlanned (texts options.now) (texts files.now) }
    ensures { IsMatched (texts options.now) (texts files.now) (drop 1 (texts_of words.entry.now)) result }
{
    let command = command_of(alloc, options, files)?;
    match command.try_get_matches_from(words) {
        Ok(matches) => Ok(matches),
        Err(error) => Err(WordsFail::from(error)),
    }
}

/// The command line of these options and files, without clap's own help and version.
fn command_of<'a>(
    alloc: Global,
    options: &[&'a str],
    files: &[&'a str],
) -> Result<Command<'a>, AllocError>
    ensures { IfOk result (λ c. app_of c ≡ plan_app (texts options.now) (texts files.now)) }
{
    let command = with_options(alloc, bare_command(alloc), options)?;
    with_files(alloc, command, files)
}

/// The command line without options and files.
fn bare_command<'a>(alloc: Global) -> Command<'a>
    ensures { app_of result ≡ plan_app [] [] }
{
    Command::new(alloc, "rio")
        .disable_help_flag(true)
        .disable_version_flag(true)
}

/// Adds an option `--name VALUE` for each name.
fn with_options<'a>(
    alloc: Global,
    mut command: Command<'a>,
    names: &[&'a str],
) -> Result<Command<'a>, AllocError>
    ensures { IfOk result (λ c. app_of c ≡ with_rules (app_of command.entry) (map option_given (texts names.now))) }
{
    for name in names {
        command = with_option(alloc, command, name)?;
    }
    Ok(command)
}

/// Adds one option.
fn with_option<'a>(
    alloc: Global,
    command: Command<'a>,
    name: &'a str,
) -> Result<Command<'a>, AllocError>
    ensures { IfOk result (λ c. app_of c ≡ with_rule (app_of command.entry) (option_given name.entry.now)) }
{
    command.arg(option_of(alloc, name))
}

/// An option `--name VALUE`.
fn option_of<'a>(alloc: Global, name: &'a str) -> Arg<'a>
    ensures rule { rule_of result ≡ option_given name.entry.now }
    ensures local { result.global ≡ false }
{
    Arg::new(alloc, name).long(name).action(ArgAction::Set)
}

/// Adds a positional argument for each name, in this order.
fn with_files<'a>(
    alloc: Global,
    mut command: Command<'a>,
    names: &[&'a str],
) -> Result<Command<'a>, AllocError>
    ensures { IfOk result (λ c. app_of c ≡ with_rules (app_of command.entry) (map file_given (texts names.now))) }
{
    for name in names {
        command = with_file(alloc, command, name)?;
    }
    Ok(command)
}

/// Adds one positional argument.
fn with_file<'a>(
    alloc: Global,
    command: Command<'a>,
    name: &'a str,
) -> Result<Command<'a>, AllocError>
    ensures { IfOk result (λ c. app_of c ≡ with_rule (app_of command.entry) (file_given name.entry.now)) }
{
    command.arg(Arg::new(alloc, name).action(ArgAction::Set))
}
