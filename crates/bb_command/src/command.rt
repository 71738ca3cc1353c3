//! The command line: the work and its limits.
ghost use Rattle.std.specs.Prelude.{◌≡◌, ◌⊎◌, false, true, IfErr, IfOk, Some, map};
ghost use Rattle.clap.specs.declared.builder.command.Command.TheViews.{out-Command as fields_of};
ghost use Rattle.clap.specs.Words.{app_of, found_of, kind_of, rows_of, rule_of, shape_of};
ghost use Rattle.clap.specs.Simple.{new_shape};
ghost use Rattle.bb_command.specs.Command.{
  AreGivenBy,
  AsksToCheck,
  AsksToDecide,
  AsksToTrace,
  IsAskedBy,
  IsKindStop,
  IsLimitsStop,
  IsNumbersStop,
  IsStopOf,
  bounds_of,
  list_bounds,
  stop_status,
  trace_bounds,
  words_meant,
};
ghost use Rattle.bb_command.specs.CommandLine.{
  check_shape,
  command_line,
  decide_shape,
  depth_rule,
  nodes_rule,
  trace_shape,
};

use crate::options::{
    VERSION, cells, has_option, limit, list_file, number, positional, steps, stop_of, switch, value,
};
use bb_machine::{LimitFault, Limits, Plan};
use clap::error::ErrorKind;
use clap::{Arg, ArgMatches, Command, Error};
use std::alloc::{AllocError, Global};

/// The work to do.
#[derive(Debug, Drop)]
pub enum Work {
    /// A verdict for each machine of a list, by these deciders.
    Decide(Plan),
    /// An answer to each verdict line of a list.
    Check,
    /// The first configurations of the machine with this text, up to the limit of steps.
    Trace(String),
}

/// A parsed command line.
#[derive(Debug, Drop)]
pub struct Asked {
    /// The work to do.
    pub work: Work,
    /// Its limits.
    pub limits: Limits,
    /// The list's file; standard input if none. A trace reads none.
    pub file: Option<String>,
}

/// The reason for doing no work.
#[derive(Debug, Drop)]
pub enum Stop {
    /// A request for help or the version; this is its text.
    Help(String),
    /// A wrong command line; this is the reason.
    Words(String),
    /// The limits are refused.
    Limits(LimitFault),
    /// An allocation failed.
    Memory,
}

impl Stop {
    /// The program's exit status: 0 after help or the version, 3 after an allocation failure, 2 for a
    /// refusal.
    pub fn status(&self) -> u8
        ensures { result ≡ stop_status self.now }
    {
        match self {
            Stop::Help(_) => 0,
            Stop::Words(_) | Stop::Limits(_) => 2,
            Stop::Memory => 3,
        }
    }
}

impl From<AllocError> for Stop {
    ghost use Rattle.std.specs.Prelude.{◌≡◌};
    ghost use Rattle.bb_command.specs.declared.command.Stop.TheVariants.{Memory};

    ghost from_gives = { λ _ stop. stop ≡ Memory };

    fn from(_error: AllocError) -> Stop {
        Stop::Memory
    }
}

/// Parses a command line. The first word is the program's name.
///
/// Words come before limits: a wrong word is reported even if limits are wrong too. `bb help` and `bb help
/// COMMAND` request help too.
pub fn ask(alloc: Global, words: &[&str]) -> Result<Asked, Stop>
    ensures asked { IfOk result (IsAskedBy (words_meant (map (λ word. word.now) words.now))) }
    ensures stop { IfErr result (IsStopOf (words_meant (map (λ word. word.now) words.now))) }
{
    if words.len() == 2 && words[1] == "help" {
        read_words(alloc, &[words[0], "--help"])
    } else if words.len() == 3 && words[1] == "help" {
        read_words(alloc, &[words[0], words[2], "--help"])
    } else {
        read_words(alloc, words)
    }
}

/// Parses a command line with requests for help by an option alone.
fn read_words(alloc: Global, words: &[&str]) -> Result<Asked, Stop>
    ensures asked { IfOk result (IsAskedBy (map (λ word. word.now) words.now)) }
    ensures stop { IfErr result (IsStopOf (map (λ word. word.now) words.now)) }
{
    let matches = match program(alloc)?.try_get_matches_from(words) {
        Ok(matches) => matches,
        Err(error) => return Err(stop_of_words(alloc, &error, words)?),
    };
    let Some((name, values)) = matches.subcommand() else {
        unreachable!();
    };
    if name == "trace" {
        trace_of(alloc, values)
    } else if name == "check" {
        check_of(alloc, values)
    } else {
        decide_of(alloc, values)
    }
}

/// The numbers for the limits on a command line, accepted or not.
#[derive(Clone, Copy, Debug)]
pub struct Numbers {
    /// The number of steps.
    pub steps: u64,
    /// The number of cells.
    pub cells: u64,
    /// The number of levels.
    pub depth: u64,
    /// The number of nodes.
    pub nodes: u64,
    /// Whether they are those of a trace: its steps are the value of `--upto`, and it has no tree.
    pub is_of_trace: bool,
}

/// Parses the numbers for the limits, accepted or not.
pub fn parse_numbers(alloc: Global, words: &[&str]) -> Result<Numbers, Stop>
    ensures given { IfOk result (AreGivenBy (map (λ word. word.now) words.now)) }
    ensures stop { IfErr result (IsNumbersStop (map (λ word. word.now) words.now)) }
{
    let matches = match program(alloc)?.try_get_matches_from(words) {
        Ok(matches) => matches,
        Err(error) => return Err(stop_of_words(alloc, &error, words)?),
    };
    let Some((name, values)) = matches.subcommand() else {
        unreachable!();
    };
    if name == "trace" {
        Ok(trace_numbers(values))
    } else {
        Ok(list_numbers(values))
    }
}

/// The numbers for a trace.
fn trace_numbers(matches: &ArgMatches<'_>) -> Numbers
    ensures given { bounds_of result ≡ trace_bounds (rows_of (found_of matches.now)) }
    ensures trace { result.is_of_trace ≡ true }
{
    Numbers {
        steps: value(matches, "upto"),
        cells: value(matches, "cells"),
        depth: 0,
        nodes: 0,
        is_of_trace: true,
    }
}

/// The numbers for a list.
fn list_numbers(matches: &ArgMatches<'_>) -> Numbers
    ensures given { bounds_of result ≡ list_bounds (rows_of (found_of matches.now)) }
    ensures trace { result.is_of_trace ≡ false }
{
    Numbers {
        steps: value(matches, "steps"),
        cells: value(matches, "cells"),
        depth: value(matches, "depth"),
        nodes: value(matches, "nodes"),
        is_of_trace: false,
    }
}

/// The end of the program's help, after the commands.
const ABOUT_ALL: &str = "\
bb help COMMAND and bb COMMAND --help say more of a command.

A machine is a text such as 1RB1LB_1LA1RZ: a group for each state, A first, and in it
an entry for each symbol that is read: the symbol that is written, L or R, and the next
state, Z for the halting one. --- is an undefined entry.

Status: 0 all went well, 1 a line was refused, an answer is neither ok nor open, or a
trace was cut, 2 the command line was refused, 3 memory, reading or writing failed.

Example:
  printf '1RB1LB_1LA1RZ\\n' | bb decide      writes  1RB1LB_1LA1RZ halt 6 4";

/// The end of the help of `decide`, after its options.
const ABOUT_DECIDE: &str = "\
In: a machine on each line of FILE or of standard input.
Out: for each line, in order, the machine and one of
  halt STEPS SCORE               it halts after so many steps, with so many cells not 0
  cycler FIRST SECOND            it never halts: at both steps all is the same
  translated L|R FIRST SECOND SHIFT LENGTH
                                 it never halts: the same pattern again, farther out
  backward LEVELS NODES          it never halts: working back from a halt never reaches
                                 the start
  undecided steps|cells          a limit came first
or, where the line is no machine: refused COLUMN.

A halt or a pair costs about the steps that its verdict names; any other machine costs a
run to the limit, and the tree. 2 times the depth, less 1, must be at most the cells.

Status: 0 every line was a machine, 1 a line was refused, 2 the command line was refused,
3 memory, reading or writing failed.

Example:
  printf '1RB1LB_1LA1RZ\\n' | bb decide      writes  1RB1LB_1LA1RZ halt 6 4";

/// The end of the help of `check`, after its options.
const ABOUT_CHECK: &str = "\
In: a verdict, as decide writes them, on each line of FILE or of standard input.
Out: for each line, in order, one of
  ok        its claim holds
  bad       its claim doesn't hold
  over      its claim needs more than the limits
  open      it claims nothing: it is undecided or a refusal
  unread    it is no verdict

2 times the depth, less 1, must be at most the cells.

Status: 0 every answer is ok or open, 1 another answer is among them, 2 the command line
was refused, 3 memory, reading or writing failed.

Example:
  echo '1RB1LB_1LA1RZ halt 6 4' | bb check     writes  ok";

/// The end of the help of `trace`, after its options.
const ABOUT_TRACE: &str = "\
In: a machine's text, as an argument. Out: a line for each step, from 0 to the halt or to
the last step that is asked for: STEP STATE POSITION CELLS, the cells one digit each, over
the positions that were visited. A text that is no machine: refused COLUMN. A machine that
begins with --- needs -- before it, as in  bb trace --upto 1 -- ---1RZ

Status: 0 all went well, 1 the text was refused or the cells cut the trace, 2 the command
line was refused, 3 memory or writing failed.

Example:
  bb trace --upto 1 1RB1LB_1LA1RZ     writes  0 A 0 0  and  1 B 1 10";

fn program<'a>(alloc: Global) -> Result<Command<'a>, AllocError>
    ensures { IfOk result (λ command. app_of command ≡ command_line) }
{
    Command::new(alloc, "bb")
        .about("Simulates and decides Turing machines of up to 25 states and 10 symbols")
        .after_help(ABOUT_ALL)
        .version(VERSION)
        .disable_help_subcommand(true)
        .subcommand_required(true)
        .subcommand(decide_command(alloc)?)?
        .subcommand(check_command(alloc)?)?
        .subcommand(trace_command(alloc)?)
}

fn decide_command<'a>(alloc: Global) -> Result<Command<'a>, AllocError>
    ensures shape { IfOk result (λ command. shape_of command ≡ decide_shape) }
    ensures local { IfOk result (λ command. (fields_of command).has_globals ≡ false) }
{
    let file = positional(
        alloc,
        "file",
        "FILE",
        "The list of machines, a line each [default: standard input]",
    );
    command(
        alloc,
        "decide",
        "Decides each machine of a list",
        ABOUT_DECIDE,
    )
    .arg(steps(alloc))?
    .arg(cells(alloc))?
    .arg(depth(alloc))?
    .arg(nodes(alloc))?
    .arg(switch(alloc, "no-cyclers", "Leaves out the cyclers"))?
    .arg(switch(alloc, "no-translated", "Leaves out the translated cyclers"))?
    .arg(switch(alloc, "no-backward", "Leaves out backward reasoning"))?
    .arg(file)
}

fn check_command<'a>(alloc: Global) -> Result<Command<'a>, AllocError>
    ensures shape { IfOk result (λ command. shape_of command ≡ check_shape) }
    ensures local { IfOk result (λ command. (fields_of command).has_globals ≡ false) }
{
    let file = positional(
        alloc,
        "file",
        "FILE",
        "The list of verdict lines [default: standard input]",
    );
    command(
        alloc,
        "check",
        "Checks each verdict line of a list",
        ABOUT_CHECK,
    )
    .arg(steps(alloc))?
    .arg(cells(alloc))?
    .arg(depth(alloc))?
    .arg(nodes(alloc))?
    .arg(file)
}

fn trace_command<'a>(alloc: Global) -> Result<Command<'a>, AllocError>
    ensures shape { IfOk result (λ command. shape_of command ≡ trace_shape) }
    ensures local { IfOk result (λ command. (fields_of command).has_globals ≡ false) }
{
    let upto = number(
        alloc,
        "upto",
        "The last step that is printed, 0 to 1000000000000",
    )
    .required(true);
    let machine = positional(alloc, "machine", "MACHINE", "The machine's text").required(true);
    command(
        alloc,
        "trace",
        "Prints the first configurations of a machine",
        ABOUT_TRACE,
    )
    .arg(upto)?
    .arg(cells(alloc))?
    .arg(machine)
}

fn command<'a>(alloc: Global, name: &'a str, about: &'a str, more: &'a str) -> Command<'a>
    ensures shape { shape_of result ≡ new_shape name.now }
    ensures local { (fields_of result).has_globals ≡ false }
    ensures about { (fields_of result).about ≡ Some about.entry }
    ensures more { (fields_of result).after_help ≡ Some more.entry }
{
    Command::new(alloc, name).about(about).after_help(more)
}

fn depth<'a>(alloc: Global) -> Arg<'a>
    ensures rule { rule_of result ≡ depth_rule }
    ensures local { result.global ≡ false }
{
    limit(
        alloc,
        "depth",
        "300",
        "The most levels of the backward tree, 0 to 10000",
    )
}

fn nodes<'a>(alloc: Global) -> Arg<'a>
    ensures rule { rule_of result ≡ nodes_rule }
    ensures local { result.global ≡ false }
{
    limit(
        alloc,
        "nodes",
        "1000000",
        "The most nodes of the backward tree, 0 to 1000000000000",
    )
}

/// The message after `bb help` with more than one command.
const MORE_THAN_ONE: &str = "\
error: 'bb help' takes one command: decide, check or trace

For more information, try '--help'.
";

/// The stop for a parse error of these words.
fn stop_of_words(alloc: Global, error: &Error, words: &[&str]) -> Result<Stop, AllocError>
    ensures { IfOk result (IsKindStop (kind_of error.now)) }
{
    match error.kind() {
        ErrorKind::OutOfMemory | ErrorKind::DisplayHelp | ErrorKind::DisplayVersion => {
            stop_of(alloc, error)
        }
        _ if words.len() > 3 && words[1] == "help" => {
            Ok(Stop::Words(String::from_str(alloc, MORE_THAN_ONE)?))
        }
        _ => stop_of(alloc, error),
    }
}

fn decide_of(alloc: Global, matches: &ArgMatches<'_>) -> Result<Asked, Stop>
    ensures asked { IfOk result (AsksToDecide (rows_of (found_of matches.now))) }
    ensures stop { IfErr result (λ stop. (stop ≡ Stop.Memory)
        ⊎ IsLimitsStop (list_bounds (rows_of (found_of matches.now))) stop) }
{
    let plan = Plan {
        cyclers: !has_option(matches, "no-cyclers"),
        translated: !has_option(matches, "no-translated"),
        backward: !has_option(matches, "no-backward"),
    };
    let limits = list_limits(matches)?;
    let file = list_file(alloc, matches)?;
    Ok(Asked {
        work: Work::Decide(plan),
        limits,
        file,
    })
}

fn check_of(alloc: Global, matches: &ArgMatches<'_>) -> Result<Asked, Stop>
    ensures asked { IfOk result (AsksToCheck (rows_of (found_of matches.now))) }
    ensures stop { IfErr result (λ stop. (stop ≡ Stop.Memory)
        ⊎ IsLimitsStop (list_bounds (rows_of (found_of matches.now))) stop) }
{
    let limits = list_limits(matches)?;
    let file = list_file(alloc, matches)?;
    Ok(Asked {
        work: Work::Check,
        limits,
        file,
    })
}

/// The limits for a list, if they are accepted.
fn list_limits(matches: &ArgMatches<'_>) -> Result<Limits, Stop>
    ensures ok { IfOk result (λ limits. limits ≡ list_bounds (rows_of (found_of matches.now))) }
    ensures stop { IfErr result (IsLimitsStop (list_bounds (rows_of (found_of matches.now)))) }
{
    accept_limits(&list_numbers(matches))
}

/// The limits with these numbers, if they are accepted.
fn accept_limits(numbers: &Numbers) -> Result<Limits, Stop>
    ensures ok { IfOk result (λ limits. limits ≡ bounds_of numbers.now) }
    ensures stop { IfErr result (IsLimitsStop (bounds_of numbers.now)) }
{
    Limits::new(numbers.steps, numbers.cells, numbers.depth, numbers.nodes).map_err(Stop::Limits)
}

fn trace_of(alloc: Global, matches: &ArgMatches<'_>) -> Result<Asked, Stop>
    ensures asked { IfOk result (AsksToTrace (rows_of (found_of matches.now))) }
    ensures stop { IfErr result (λ stop. (stop ≡ Stop.Memory)
        ⊎ IsLimitsStop (trace_bounds (rows_of (found_of matches.now))) stop) }
{
    let limits = accept_limits(&trace_numbers(matches))?;
    let text = matches.get_str("machine").unwrap_or("");
    Ok(Asked {
        work: Work::Trace(String::from_str(alloc, text)?),
        limits,
        file: None,
    })
}
