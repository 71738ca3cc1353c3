//! `bb`: verdicts on small Turing machines. `docs/definitions.md` defines them.
#![tactic(auto)]

ghost use Rattle.std.specs.Prelude.{◌≡◌, IfErr, IfOk, map};
ghost use Rattle.std.specs.String.{string_bytes};
ghost use Rattle.bb_command.specs.Command.{AreGivenBy, IsAskedBy, IsStopOf, words_meant};
ghost use Rattle.bb_terminal.specs.Status.{IsStopStatus};

mod hints;
mod progress;
mod serve;
#[cfg(test)]
mod tests;

use bb_command::{Advice, Asked, Numbers, Stop, ask, parse_numbers};
use bb_lines::fault::Fault;
use bb_lines::watched::Watched;
use bb_run::Summary;
use bb_terminal::arguments::{read_arguments, words_of};
use bb_terminal::failures::{open_list, print_failure};
use bb_terminal::progress::Progress;
use bb_terminal::streams::Observed;
use hints::{Hinted, InputHint, plain_number};
use progress::{Counts, CountsByKind};
use serve::{is_cut, serve_in_single_pass, status};
use std::alloc::Global;
use std::io;
use std::io::{IsTerminal, Read};
use std::process::ExitCode;

fn main(rt: HostRuntime) -> ExitCode {
    let arguments = match read_arguments(&rt) {
        Ok(arguments) => arguments,
        Err(stop) => return ExitCode::from(report_stop(&rt, &stop, None)),
    };
    let status = match parse_request(rt.alloc(), arguments.as_slice()) {
        Ok(asked) => answer_request(&rt, &asked),
        Err(stop) => {
            let numbers = parse_numbers_of(rt.alloc(), arguments.as_slice()).ok();
            let status = report_stop(&rt, &stop, numbers);
            if let Stop::Words(_) = stop {
                let _ = print_plain_numbers(&rt, arguments.as_slice());
            }
            status
        }
    };
    ExitCode::from(status)
}

/// The request of the arguments.
fn parse_request(alloc: Global, arguments: &[String]) -> Result<Asked, Stop>
    ensures asked { IfOk result (IsAskedBy (words_meant (map string_bytes arguments.now))) }
    ensures stop { IfErr result (IsStopOf (words_meant (map string_bytes arguments.now))) }
{
    ask(alloc, words_of(alloc, arguments)?.as_slice())
}

/// The numbers for the limits among the arguments.
fn parse_numbers_of(alloc: Global, arguments: &[String]) -> Result<Numbers, Stop>
    ensures given { IfOk result (AreGivenBy (map string_bytes arguments.now)) }
{
    parse_numbers(alloc, words_of(alloc, arguments)?.as_slice())
}

/// Does the work, reports a fault, and returns the exit status. A file that can't be opened is a failed read.
fn answer_request(rt: &HostRuntime, asked: &Asked) -> u8 {
    let counts = Counts::default();
    let (end, error, hint) = match &asked.file {
        Some(file) => match open_list(rt, file) {
            Ok((file, size)) => serve_input(rt, asked, size, file, &counts),
            Err(error) => (Err(Fault::Read), Some(error), None),
        },
        None => serve_input(rt, asked, None, rt.stdin(), &counts),
    };
    match &end {
        Ok(_) => {
            let _ = print_notes(rt, asked, &end, hint);
        }
        Err(fault) => {
            let _ = print_fault(rt, asked, *fault, error.as_ref());
        }
    }
    status(&end)
}

/// Does the work with this input, of `size` bytes if known, and shows the progress. Returns the result with
/// the error behind a fault and the hint on the input, if any.
fn serve_input<'a, R: Read + Drop>(
    rt: &'a HostRuntime,
    asked: &Asked,
    size: Option<u64>,
    input: R,
    counts: &'a Counts,
) -> (Result<Summary, Fault>, Option<io::Error>, Option<InputHint>) {
    let progress = CountsByKind::of(rt, &asked.work, counts).map(|counts| Progress::new(
        rt, counts, size,
    ));
    let shown = progress.as_ref();
    let mut reader = Watched::new(Observed::new(Hinted::new(input), shown));
    let mut writer = Watched::new(Observed::new(rt.stdout(), shown));
    let end = serve_in_single_pass(rt.alloc(), asked, &mut reader, &mut writer, counts);
    if let Some(progress) = shown {
        progress.end();
    }
    let reader = reader.into_inner();
    let hint = reader.inner().hint();
    let read_error = reader.into_error();
    let write_error = writer.into_inner().into_error();
    let error = match &end {
        Err(Fault::Read) => read_error,
        Err(Fault::Write) => write_error,
        _ => None,
    };
    (end, error, hint)
}

/// Prints the hint on the input, if any, and whether the limit of cells cuts a trace.
fn print_notes(
    rt: &HostRuntime,
    asked: &Asked,
    end: &Result<Summary, Fault>,
    hint: Option<InputHint>,
) -> io::Result<()> {
    if let Some(hint) = hint {
        rt.eprintln(hint)?;
    }
    if is_cut(&asked.work, end) {
        let cells = asked.limits.cells();
        eprintln!(rt; "the trace is cut: its next step needs more than --cells {cells}")?;
    }
    Ok(())
}

/// Prints a fault, on a terminal with the reason.
fn print_fault(
    rt: &HostRuntime,
    asked: &Asked,
    fault: Fault,
    error: Option<&io::Error>,
) -> io::Result<()> {
    rt.eprintln(fault)?;
    match error {
        Some(error) if rt.stderr().is_terminal() => {
            let file = asked.file.as_ref().map(|file| file.as_str());
            print_failure(rt, file, fault, error)
        }
        _ => Ok(()),
    }
}

/// Prints the plain form of numbers with separators among the arguments.
fn print_plain_numbers(rt: &HostRuntime, arguments: &[String]) -> io::Result<()> {
    for word in arguments {
        if let Some(number) = plain_number(word.as_str()) {
            eprintln!(rt; "{word}: write the number as {number}")?;
        }
    }
    Ok(())
}

/// Prints the reason for doing no work, and returns the exit status: that of the stop, or 3 if help or the
/// version can't be written.
fn report_stop(rt: &HostRuntime, stop: &Stop, numbers: Option<Numbers>) -> u8
    ensures { IsStopStatus stop.now result }
{
    match (print_stop(rt, stop, numbers), stop) {
        (Err(_), Stop::Help(_)) => {
            let _ = eprintln!(rt; "{}", Fault::Write);
            3
        }
        _ => stop.status(),
    }
}

/// Prints help to standard output, and any other cause to standard error; on a terminal, also the refused
/// limits and accepted values. It isn't inlined: the alignment of the single-pass run depends on the
/// functions before it (`docs/performance.md`).
#[inline(never)]
fn print_stop(rt: &HostRuntime, stop: &Stop, numbers: Option<Numbers>) -> io::Result<()> {
    match stop {
        Stop::Help(text) => rt.print(text),
        Stop::Words(text) => rt.eprint(text),
        Stop::Limits(fault) => {
            rt.eprintln(fault)?;
            match numbers {
                Some(numbers) if rt.stderr().is_terminal() => rt.eprintln(Advice {
                    fault: *fault,
                    numbers,
                }),
                _ => Ok(()),
            }
        }
        Stop::Memory => rt.eprintln(Fault::Memory),
    }
}
