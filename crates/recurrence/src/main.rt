//! `recurrence`: the exact start, period, shift and last uses of machines that repeat for ever, as defined in
//! `docs/recurrence.md`.
#![tactic(auto)]

ghost use Rattle.std.specs.Prelude.{◌≡◌};
ghost use Rattle.recurrence.specs.Status.{end_status};

mod command;
mod progress;
mod serve;

use bb_command::Stop;
use bb_lines::fault::Fault;
use bb_lines::watched::Watched;
use bb_recurrence::RecurrenceCounts;
use bb_run::Summary;
use bb_terminal::arguments::{read_arguments, words_of};
use bb_terminal::failures::{open_list, report_fault, report_stop};
use bb_terminal::progress::Progress;
use bb_terminal::streams::Observed;
use command::{Asked, ask};
use progress::LineCounts;
use serve::{list_recurrences, status};
use std::io;
use std::io::Read;
use std::process::ExitCode;

/// The program's name, as messages begin.
const PROGRAM: &str = "recurrence";

fn main(rt: HostRuntime) -> ExitCode {
    let status = match parse_request(&rt) {
        Ok(asked) => answer_request(&rt, &asked),
        Err(stop) => report_stop(&rt, PROGRAM, &stop),
    };
    ExitCode::from(status)
}

/// The request of the process's arguments, which must be UTF-8.
fn parse_request(rt: &HostRuntime) -> Result<Asked, Stop> {
    let arguments = read_arguments(rt)?;
    let words = words_of(rt.alloc(), arguments.as_slice())?;
    ask(rt.alloc(), words.as_slice())
}

/// Replies to the list, and returns the exit status. A file that can't be opened is a failed read.
fn answer_request(rt: &HostRuntime, asked: &Asked) -> u8 {
    let counts = RecurrenceCounts::default();
    let (end, error) = match &asked.file {
        Some(file) => match open_list(rt, file) {
            Ok((file, size)) => reply_to_input(rt, asked, size, file, &counts),
            Err(error) => (Err(Fault::Read), Some(error)),
        },
        None => reply_to_input(rt, asked, None, rt.stdin(), &counts),
    };
    report_end(rt, asked, &end, error.as_ref())
}

/// Reports a fault, and returns the exit status.
fn report_end(
    rt: &HostRuntime,
    asked: &Asked,
    end: &Result<Summary, Fault>,
    error: Option<&io::Error>,
) -> u8
    ensures { result ≡ end_status end.now }
{
    if let Err(fault) = end {
        let file = asked.file.as_ref().map(|file| file.as_str());
        return report_fault(rt, PROGRAM, file, *fault, error);
    }
    status(end)
}

/// Replies to a list of `size` bytes, if known, and shows the progress. Returns the result with the error
/// behind a fault, if any.
fn reply_to_input<'a, R: Read + Drop>(
    rt: &'a HostRuntime,
    asked: &Asked,
    size: Option<u64>,
    input: R,
    counts: &'a RecurrenceCounts,
) -> (Result<Summary, Fault>, Option<io::Error>) {
    let progress = LineCounts::of(rt, counts).map(|counts| Progress::new(rt, counts, size));
    let shown = progress.as_ref();
    let mut reader = Watched::new(Observed::new(input, shown));
    let mut writer = Watched::new(Observed::new(rt.stdout(), shown));
    let end = list_recurrences(rt.alloc(), asked, &mut reader, &mut writer, counts);
    if let Some(progress) = shown {
        progress.end();
    }
    let read_error = reader.into_inner().into_error();
    let write_error = writer.into_inner().into_error();
    let error = match &end {
        Err(Fault::Read) => read_error,
        Err(Fault::Write) => write_error,
        _ => None,
    };
    (end, error)
}
