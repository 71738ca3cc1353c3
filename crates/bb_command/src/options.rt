//! Options and arguments of a command line, and the values given for them.
ghost use Rattle.std.specs.Prelude.{◌≡◌, ◌++◌, false, IfOk, IfSome, Some, codes, decimal, option_map};
ghost use Rattle.std.specs.String.{string_bytes};
ghost use Rattle.clap.specs.Words.{first_of, found_of, kind_of, rows_of, rule_of};
ghost use Rattle.clap.specs.declared.builder.texts.Texts.TheVariants.{One};
ghost use Rattle.bb_machine.specs.declared.limits.TheConstants.{MAX_CELLS};
ghost use Rattle.bb_command.specs.Command.{IsKindStop, is_given, number_of};
ghost use Rattle.bb_command.specs.CommandLine.{
  by_default,
  cells_rule,
  number_rule,
  positional_rule,
  steps_rule,
  switch_rule,
};

use crate::command::Stop;
use clap::error::ErrorKind;
use clap::{Arg, ArgAction, ArgMatches, Error, value_parser};
use std::alloc::{AllocError, Global};

/// The version that `--version` prints, of all programs here.
pub const VERSION: &str = "0.2.0";

/// The default number of cells: 2^16.
const DEFAULT_CELLS: &str = "65536";

/// The help of `--cells`. Help is a literal; a clause says that its range ends at `MAX_CELLS`.
const CELLS_HELP: &str = "The most cells of one tape, 1 to 67108864";

/// The option `--steps N`, the limit of steps.
pub fn steps<'a>(alloc: Global) -> Arg<'a>
    ensures rule { rule_of result ≡ steps_rule }
    ensures local { result.global ≡ false }
{
    limit(
        alloc,
        "steps",
        "1000000",
        "The most steps of one simulation, 0 to 1000000000000",
    )
}

/// The option `--cells N`, the limit of cells.
pub fn cells<'a>(alloc: Global) -> Arg<'a>
    ensures rule { rule_of result ≡ cells_rule }
    ensures local { result.global ≡ false }
    ensures help { IfSome result.help (λ help.
        help.now ≡ codes "The most cells of one tape, 1 to " ++ decimal MAX_CELLS) }
{
    limit(alloc, "cells", DEFAULT_CELLS, CELLS_HELP)
}

/// An option with a default. Help is one literal, so the ranges of `bb_machine::limits` are written out
/// in it.
pub fn limit<'a>(alloc: Global, name: &'a str, default: &'a str, help: &'a str) -> Arg<'a>
    ensures rule { rule_of result ≡ by_default default.now (number_rule name.now) }
    ensures local { result.global ≡ false }
    ensures help { result.help ≡ Some help.entry }
{
    number(alloc, name, help).default_value(default)
}

/// An option with a number from 0 to 2^64 - 1.
pub fn number<'a>(alloc: Global, name: &'a str, help: &'a str) -> Arg<'a>
    ensures rule { rule_of result ≡ number_rule name.now }
    ensures local { result.global ≡ false }
    ensures help { result.help ≡ Some help.entry }
{
    Arg::new(alloc, name)
        .long(name)
        .value_name("N")
        .help(help)
        .value_parser(value_parser!(u64))
}

/// An option without a value.
pub fn switch<'a>(alloc: Global, name: &'a str, help: &'a str) -> Arg<'a>
    ensures rule { rule_of result ≡ switch_rule name.now }
    ensures local { result.global ≡ false }
    ensures help { result.help ≡ Some help.entry }
{
    Arg::new(alloc, name)
        .long(name)
        .help(help)
        .action(ArgAction::SetTrue)
}

/// An argument known by its position; help shows it as `shown`.
pub fn positional<'a>(alloc: Global, name: &'a str, shown: &'a str, help: &'a str) -> Arg<'a>
    ensures rule { rule_of result ≡ positional_rule name.now }
    ensures local { result.global ≡ false }
    ensures help { result.help ≡ Some help.entry }
    ensures shown { result.val_names ≡ One shown.entry }
{
    Arg::new(alloc, name).value_name(shown).help(help)
}

/// The stop for a parse error.
pub fn stop_of(alloc: Global, error: &Error) -> Result<Stop, AllocError>
    ensures { IfOk result (IsKindStop (kind_of error.now)) }
{
    match error.kind() {
        ErrorKind::OutOfMemory => Ok(Stop::Memory),
        ErrorKind::DisplayHelp | ErrorKind::DisplayVersion => Ok(Stop::Help(error.to_string(
            alloc,
        )?)),
        _ => Ok(Stop::Words(error.to_string(alloc)?)),
    }
}

/// The list's file; none for standard input.
pub fn list_file(alloc: Global, matches: &ArgMatches<'_>) -> Result<Option<String>, AllocError>
    ensures { IfOk result (λ file.
        option_map string_bytes file ≡ first_of (codes "file") (rows_of (found_of matches.now))) }
{
    match matches.get_str("file") {
        Some(file) => Ok(Some(String::from_str(alloc, file)?)),
        None => Ok(None),
    }
}

/// The value of a numeric option. Each is required or has a default, and is parsed as a number, so
/// none is missing.
pub fn value(matches: &ArgMatches<'_>, name: &str) -> u64
    ensures { result ≡ number_of name.now (rows_of (found_of matches.now)) }
{
    matches.get_one::<u64>(name).unwrap_or(0)
}

/// Whether an option without a value is given.
pub fn has_option(matches: &ArgMatches<'_>, name: &str) -> bool
    ensures { result ≡ is_given name.now (rows_of (found_of matches.now)) }
{
    matches.get_one::<bool>(name).unwrap_or(false)
}
