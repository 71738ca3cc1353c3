//! The command line: the list and its limits.
ghost use Rattle.std.specs.Prelude.{◌≡◌, [], IfErr, IfOk, codes, map, true};
ghost use Rattle.clap.specs.Simple.{new_shape};
ghost use Rattle.clap.specs.Words.{app_of, found_of, rows_of};
ghost use Rattle.bb_command.specs.Command.{IsLimitsStop};
ghost use Rattle.recurrence.specs.CommandLine.{IsAskedBy, IsStopOf, command_line, pair_bounds};

use bb_command::Stop;
use bb_command::options::{
    VERSION, cells, has_option, list_file, positional, steps, stop_of, switch, value,
};
use bb_machine::Limits;
use clap::{ArgMatches, Command};
use std::alloc::{AllocError, Global};

/// A parsed command line.
#[derive(Drop)]
pub struct Asked {
    /// The limits of the list's pairs.
    pub limits: Limits,
    /// Whether the last use of each entry is printed.
    pub entries: bool,
    /// The list's file; standard input if none.
    pub file: Option<String>,
}

/// Reads a command line. The first word is the program's name. Words come before limits.
pub fn ask(alloc: Global, words: &[&str]) -> Result<Asked, Stop>
    ensures asked { IfOk result (IsAskedBy (map (λ word. word.now) words.now)) }
    ensures stop { IfErr result (IsStopOf (map (λ word. word.now) words.now)) }
{
    let matches = match program(alloc)?.try_get_matches_from(words) {
        Ok(matches) => matches,
        Err(error) => return Err(stop_of(alloc, &error)?),
    };
    let limits = match limits_of(&matches) {
        Ok(limits) => limits,
        Err(stop) => return Err(stop),
    };
    let entries = has_option(&matches, "entries");
    let file = list_file(alloc, &matches)?;
    Ok(Asked {
        limits,
        entries,
        file,
    })
}

/// The end of the help, after the options.
const ABOUT: &str = "\
In: the verdict lines of a list, as `bb decide` writes them. Each cycler and
translated cycler is checked. Out: for each line, in order, one of
  MACHINE recurs START PERIOD SHIFT USE_A USE_B ..
            from step START on, the run uses the same transitions again after
            PERIOD steps, with the head SHIFT cells farther to the right. Both
            numbers are the least. Each USE is the last step with the state,
            * for ever, - for never
  MACHINE recurs .. quasihalts STEPS
            the last of so many steps is the last use of a state
  MACHINE recurs .. entries USE_A0 USE_A1 .. USE_B0 ..
            with --entries: the last use of each entry of the table
  bad       the claim of a pair doesn't hold
  over      it needs more than the limits
  open      the line claims no pair
  unread    it is no verdict

Status: 0 every reply is recurs or open, 1 another reply is among them, 2 the
command line was refused, 3 memory, reading or writing failed.

Example:
  echo '1RB---_1RA--- translated R 2 4 2 1' | recurrence
  writes  1RB---_1RA--- recurs 0 2 2 * *";

fn program<'a>(alloc: Global) -> Result<Command<'a>, AllocError>
    ensures { IfOk result (λ command. app_of command ≡ command_line) }
{
    base_command(alloc)
        .arg(steps(alloc))?
        .arg(cells(alloc))?
        .arg(switch(
            alloc,
            "entries",
            "Prints the last use of each entry of a table too",
        ))?
        .arg(positional(
            alloc,
            "file",
            "FILE",
            "The list of verdict lines [default: standard input]",
        ))
}

/// The command without its arguments.
fn base_command<'a>(alloc: Global) -> Command<'a>
    ensures { app_of result
        ≡ record { top = record (new_shape (codes "recurrence")) { has_version = true }; subs = [] } }
{
    Command::new(alloc, "recurrence")
        .about("The exact start, period, shift and last uses of machines that repeat for ever")
        .after_help(ABOUT)
        .version(VERSION)
}

/// The limits, if they are accepted. A pair has no tree.
fn limits_of(matches: &ArgMatches<'_>) -> Result<Limits, Stop>
    ensures ok { IfOk result (λ limits. limits ≡ pair_bounds (rows_of (found_of matches.now))) }
    ensures stop { IfErr result (IsLimitsStop (pair_bounds (rows_of (found_of matches.now)))) }
{
    Limits::new(value(matches, "steps"), value(matches, "cells"), 0, 0).map_err(Stop::Limits)
}
