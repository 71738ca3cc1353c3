//! The command line: the list, the required walk, and its limits.
ghost use Rattle.std.specs.Prelude.{◌≡◌, ◌++◌, [], false, true, IfErr, IfOk, IfSome, codes, decimal, map};
ghost use Rattle.std.specs.Prelude.{option_map};
ghost use Rattle.std.specs.String.{string_bytes};
ghost use Rattle.clap.specs.Simple.{new_shape};
ghost use Rattle.clap.specs.Words.{app_of, first_of, found_of, rows_of, rule_of};
ghost use Rattle.bb_machine.specs.Column.{IsColumn};
ghost use Rattle.bb_machine.specs.declared.limits.TheConstants.{MAX_CELLS};
ghost use Rattle.bb_command.specs.Command.{IsLimitsStop, is_given, list_bounds};
ghost use Rattle.cover.specs.CommandLine.{IsAskedBy, IsGivenMachine, IsStopOf, command_line, form_by, text_rule};
ghost use Rattle.cover.specs.CommandLine.{IsTextRefused, cells_rule, names_walk};
ghost use Rattle.cover.specs.Status.{refusal_status};

use bb_command::Stop;
use bb_command::options::{
    VERSION, has_option, limit, list_file, positional, stop_of, switch, value,
};
use bb_cover::{Form, Task};
use bb_machine::{Limits, Machine, Refused};
use clap::{Arg, ArgMatches, Command};
use std::alloc::{AllocError, Global};

/// A parsed command line.
#[derive(Drop)]
pub struct Asked {
    /// The required walk, and the limits of its claims.
    pub task: Task,
    /// The file of machines that are assumed never to halt, if any.
    pub assume: Option<String>,
    /// The machine whose line is sought in the list, if any.
    pub line: Option<Machine>,
    /// Whether the list is one of machines, and their lines are printed.
    pub lines: bool,
    /// The list's file; standard input if none.
    pub file: Option<String>,
}

impl Asked {
    /// Whether an option of a walk is given, for which `--lines` has no use.
    pub fn names_walk(&self) -> bool
        ensures { result ≡ names_walk self.now }
    {
        let has_first = self.task.below.is_some() || self.line.is_some();
        has_first || self.task.form == Form::Skeleton || self.assume.is_some()
    }
}

/// The reason for doing no work.
#[derive(Drop)]
pub enum Refusal {
    /// A cause common to all programs: the words, help, the limits or an allocation.
    Common(Stop),
    /// The text of `--below` is no machine.
    Below(Refused),
    /// The text of `--line` is none.
    Line(Refused),
}

impl Refusal {
    /// The program's exit status: that of a common stop, or 2 for a refused machine.
    pub fn status(&self) -> u8
        ensures { result ≡ refusal_status self.now }
    {
        match self {
            Refusal::Common(stop) => stop.status(),
            Refusal::Below(_) | Refusal::Line(_) => 2,
        }
    }
}

impl From<AllocError> for Refusal {
    ghost use Rattle.std.specs.Prelude.{◌≡◌};
    ghost use Rattle.bb_command.specs.declared.command.Stop.TheVariants.{Memory};
    ghost use Rattle.cover.specs.declared.command.Refusal.TheVariants.{Common};

    ghost from_gives = { λ _ refusal. refusal ≡ Common Memory };

    fn from(_error: AllocError) -> Refusal {
        Refusal::Common(Stop::Memory)
    }
}

/// Reads a command line. The first word is the program's name. Words come before limits, limits before the
/// machines, and `--below` before `--line`. No machine is assumed yet never to halt, and no line is sought yet.
pub fn ask(alloc: Global, words: &[&str]) -> Result<Asked, Refusal>
    ensures asked { IfOk result (IsAskedBy (map (λ word. word.now) words.now)) }
    ensures stop { IfErr result (IsStopOf (map (λ word. word.now) words.now)) }
{
    let matches = match program(alloc)?.try_get_matches_from(words) {
        Ok(matches) => matches,
        Err(error) => return Err(Refusal::Common(stop_of(alloc, &error)?)),
    };
    let limits = match limits_of(&matches) {
        Ok(limits) => limits,
        Err(stop) => return Err(Refusal::Common(stop)),
    };
    limits.show_accepted();
    let below = match machine_of(&matches, "below") {
        Ok(below) => below,
        Err(refused) => return Err(Refusal::Below(refused)),
    };
    let line = match machine_of(&matches, "line") {
        Ok(line) => line,
        Err(refused) => return Err(Refusal::Line(refused)),
    };
    let form = form_of(&matches);
    let assume = assume_file(alloc, &matches)?;
    let lines = has_option(&matches, "lines");
    let file = list_file(alloc, &matches)?;
    Ok(Asked {
        task: Task {
            limits,
            below,
            form,
            assumed: Vec::new(alloc),
            sought: None,
        },
        assume,
        line,
        lines,
        file,
    })
}

/// The most cells of any limit, as the default: a claim may need as many.
const MOST_CELLS: &str = "67108864";

/// The help of `--cells`. Help is a literal; a clause says that its range ends at `MAX_CELLS`.
const CELLS_HELP: &str = "Most cells, 1 to 67108864";

/// The most steps, and the most nodes, of any limit, as the default.
const MOST_STEPS: &str = "1000000000000";

/// The most levels of any limit, as the default.
const MOST_LEVELS: &str = "10000";

/// The end of the help, after the options.
const ABOUT: &str = "\
In: the verdict lines of a list in tree normal form, in the order of a walk in
depth, as
  tools/tree_normal_form --states 4 | bb decide --steps 1000
writes them. Each claim is checked; the limits are of what a claim may name or
need. Out: one line. For a complete list it begins with
  covers 4 states 2 symbols: 858909 lines, 8455 undecided
and tells how many of these have more than one ---, the greatest steps and score
of a halt, and how many lines are open. Then each machine of the size halts, at
most a step later, never halts, or completes an open one, perhaps mirrored or
renamed first. Otherwise the line names the first wrong line, and the reason.

With --assume the undecided lines of the machines in FILE, lines MACHINE
nonhalt, are counted as assumed, and not as open: the bound is then given that
these never halt. Machines inside shards aren't seen.

With --below the walk begins at MACHINE: the list is a shard. A skeleton has in
place of a shard's lines one line, MACHINE below N U G SHA256: its lines, those
undecided, those of them with more than one ---, and the digest of its file,
which isn't read.

With --line the end tells the number of MACHINE's line in the list: the line of
the machine that MACHINE completes, perhaps mirrored or renamed first. --steps
must be given, and be those of the list.

With --lines the input has a machine on each line, and the output tells its line
in every list of its size made with the same --steps, which must be given:
  MACHINE line LINE same|mirror STATES SYMBOLS runs|halt STEPS SCORE ENTRY
STATES and SYMBOLS are the machine's names of the line's states and symbols, and
ENTRY is the machine's own where its line halts on ---.

2 times the depth, less 1, must be at most the cells.

Status: 0 the list covers its size, 1 it doesn't, 2 the command line was
refused, 3 memory, reading or writing failed.";

fn program<'a>(alloc: Global) -> Result<Command<'a>, AllocError>
    ensures { IfOk result (λ command. app_of command ≡ command_line) }
{
    base_command(alloc)
        .arg(limit(alloc, "steps", MOST_STEPS, "Most steps, 0 to 1000000000000"))?
        .arg(cells(alloc))?
        .arg(limit(alloc, "depth", MOST_LEVELS, "Most levels, 0 to 10000"))?
        .arg(limit(alloc, "nodes", MOST_STEPS, "Most nodes, 0 to 1000000000000"))?
        .arg(text(
            alloc,
            "below",
            "MACHINE",
            "The machine to begin at [default: one with no entry]",
        ))?
        .arg(switch(
            alloc,
            "skeleton",
            "Takes lines for shards, and adds up their counts",
        ))?
        .arg(text(
            alloc,
            "assume",
            "FILE",
            "Lines MACHINE nonhalt: counts these machines apart",
        ))?
        .arg(text(
            alloc,
            "line",
            "MACHINE",
            "Tells the number of this machine's line",
        ))?
        .arg(switch(
            alloc,
            "lines",
            "Reads machines, and prints the line of each in a list",
        ))?
        .arg(positional(
            alloc,
            "file",
            "FILE",
            "The list of verdict lines [default: standard input]",
        ))
}

/// The command without its arguments.
fn base_command<'a>(alloc: Global) -> Command<'a>
    ensures { app_of result
        ≡ record { top = record (new_shape (codes "cover")) { has_version = true }; subs = [] } }
{
    Command::new(alloc, "cover")
        .about("Whether a list of verdicts settles every machine of a size")
        .after_help(ABOUT)
        .version(VERSION)
}

/// The limit of cells, by default the greatest.
fn cells<'a>(alloc: Global) -> Arg<'a>
    ensures rule { rule_of result ≡ cells_rule }
    ensures local { result.global ≡ false }
    ensures help { IfSome result.help (λ help.
        help.now ≡ codes "Most cells, 1 to " ++ decimal MAX_CELLS) }
{
    limit(alloc, "cells", MOST_CELLS, CELLS_HELP)
}

/// An option with a text.
fn text<'a>(alloc: Global, name: &'a str, value: &'a str, help: &'a str) -> Arg<'a>
    ensures rule { rule_of result ≡ text_rule name.now }
    ensures local { result.global ≡ false }
{
    Arg::new(alloc, name)
        .long(name)
        .value_name(value)
        .help(help)
}

/// The limits, if they are accepted.
fn limits_of(matches: &ArgMatches<'_>) -> Result<Limits, Stop>
    ensures ok { IfOk result (λ limits. limits ≡ list_bounds (rows_of (found_of matches.now))) }
    ensures stop { IfErr result (IsLimitsStop (list_bounds (rows_of (found_of matches.now)))) }
{
    Limits::new(
        value(matches, "steps"),
        value(matches, "cells"),
        value(matches, "depth"),
        value(matches, "nodes"),
    )
    .map_err(Stop::Limits)
}

/// The machine that an option gives, if any.
fn machine_of(matches: &ArgMatches<'_>, name: &str) -> Result<Option<Machine>, Refused>
    ensures ok { IfOk result (IsGivenMachine (first_of name.now (rows_of (found_of matches.now)))) }
    ensures refused { IfErr result (λ refused.
        IsTextRefused (first_of name.now (rows_of (found_of matches.now))) refused.column) }
{
    match matches.get_str(name) {
        Some(text) => match Machine::read(text.as_bytes()) {
            Ok(machine) => Ok(Some(machine)),
            Err(refused) => Err(refused),
        },
        None => Ok(None),
    }
}

/// The file of machines that are assumed never to halt, if one is given.
fn assume_file(alloc: Global, matches: &ArgMatches<'_>) -> Result<Option<String>, AllocError>
    ensures { IfOk result (λ file.
        option_map string_bytes file ≡ first_of (codes "assume") (rows_of (found_of matches.now))) }
{
    match matches.get_str("assume") {
        Some(file) => Ok(Some(String::from_str(alloc, file)?)),
        None => Ok(None),
    }
}

/// The lines that the list may have.
fn form_of(matches: &ArgMatches<'_>) -> Form
    ensures { result ≡ form_by (is_given (codes "skeleton") (rows_of (found_of matches.now))) }
{
    if has_option(matches, "skeleton") {
        Form::Skeleton
    } else {
        Form::Verdicts
    }
}
