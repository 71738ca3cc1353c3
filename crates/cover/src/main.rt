//! `cover`: whether a list of verdicts settles every machine of a size, or is one shard of such a list, as
//! defined in `docs/cover.md`.
#![tactic(auto)]

ghost use Rattle.std.specs.Prelude.{◌≡◌};
ghost use Rattle.cover.specs.Status.{IsRefusalStatus, IsReportStatus, lines_status};

mod assumed;
mod command;
mod report;
mod serve;

use assumed::read_assumed;
use bb_cover::Cover;
use bb_lines::fault::Fault;
use bb_lines::watched::Watched;
use bb_terminal::arguments::{read_arguments, words_of};
use bb_terminal::failures::{is_output_kept, open_list, report_fault, report_stop};
use bb_terminal::progress::Progress;
use bb_terminal::streams::Observed;
use command::{Asked, Refusal, ask};
use report::{LineCount, MachineText, write_report};
use serve::{cover_list, lines_status, list_lines, sought_text, status};
use std::cell::Cell;
use std::io;
use std::io::{IsTerminal, Read};
use std::process::ExitCode;

/// The program's name, as messages begin.
const PROGRAM: &str = "cover";

fn main(rt: HostRuntime) -> ExitCode {
    let status = match parse_request(&rt) {
        Ok(asked) if asked.lines && asked.names_walk() => report_unused(&rt),
        Ok(asked) if asked.lines => answer_machines(&rt, &asked),
        Ok(mut asked) => match prepare(&rt, &mut asked) {
            Ok(()) => answer_request(&rt, &asked),
            Err(status) => status,
        },
        Err(refusal) => report_refusal(&rt, &refusal),
    };
    ExitCode::from(status)
}

/// The request of the process's arguments, which must be UTF-8.
fn parse_request(rt: &HostRuntime) -> Result<Asked, Refusal> {
    let arguments = read_arguments(rt).map_err(Refusal::Common)?;
    let words = words_of(rt.alloc(), arguments.as_slice())?;
    ask(rt.alloc(), words.as_slice())
}

/// Reads the machines that are assumed never to halt, and finds the line that is sought. `Err` is an exit
/// status, after its message.
fn prepare(rt: &HostRuntime, asked: &mut Asked) -> Result<(), u8> {
    assume_machines(rt, asked)?;
    let Some(machine) = &asked.line else {
        return Ok(());
    };
    match sought_text(rt.alloc(), machine, &asked.task.limits) {
        Ok(text) => {
            asked.task.sought = Some(text);
            Ok(())
        }
        Err(_) => Err(report_fault(rt, PROGRAM, None, Fault::Memory, None)),
    }
}

/// Reads the machines that are assumed never to halt. `Err` is an exit status, after its message: 2 if a line
/// is refused, 3 for a fault.
fn assume_machines(rt: &HostRuntime, asked: &mut Asked) -> Result<(), u8> {
    let Some(file) = &asked.assume else {
        return Ok(());
    };
    let (end, error) = match open_list(rt, file) {
        Ok((input, _)) => {
            let unshown: Option<&Progress<'_, LineCount<'_>>> = None;
            let mut reader = Watched::new(Observed::new(input, unshown));
            let end = read_assumed(rt.alloc(), &mut reader);
            (end, reader.into_inner().into_error())
        }
        Err(error) => (Err(Fault::Read), Some(error)),
    };
    match end {
        Ok(Ok(texts)) => {
            asked.task.assumed = texts;
            Ok(())
        }
        Ok(Err(wrong)) => {
            let _ = rt.eprintln(wrong);
            Err(2)
        }
        Err(fault) => Err(report_fault(rt, PROGRAM, Some(file.as_str()), fault, error.as_ref())),
    }
}

/// Walks along the list, prints the result, and returns the exit status. A file that can't be opened is a
/// failed read.
fn answer_request(rt: &HostRuntime, asked: &Asked) -> u8 {
    let seen = Cell::new(0);
    let (end, error) = match &asked.file {
        Some(file) => match open_list(rt, file) {
            Ok((file, size)) => cover_input(rt, asked, size, file, &seen),
            Err(error) => (Err(Fault::Read), Some(error)),
        },
        None => cover_input(rt, asked, None, rt.stdin(), &seen),
    };
    report_end(rt, asked, &end, error.as_ref())
}

/// Replies to the machines of a list with their lines, and returns the exit status.
fn answer_machines(rt: &HostRuntime, asked: &Asked) -> u8 {
    let seen = Cell::new(0);
    let (end, error) = match &asked.file {
        Some(file) => match open_list(rt, file) {
            Ok((file, size)) => reply_to_machines(rt, asked, size, file, &seen),
            Err(error) => (Err(Fault::Read), Some(error)),
        },
        None => reply_to_machines(rt, asked, None, rt.stdin(), &seen),
    };
    report_lines_end(rt, asked, &end, error.as_ref())
}

/// Reports a fault, and returns the exit status.
fn report_lines_end(
    rt: &HostRuntime,
    asked: &Asked,
    end: &Result<(), Fault>,
    error: Option<&io::Error>,
) -> u8
    ensures { result ≡ lines_status end.now }
{
    match end {
        Ok(()) => lines_status(end),
        Err(fault) => report_list_fault(rt, asked, *fault, error),
    }
}

/// Replies to the machines of a list of `size` bytes, if known, and shows the progress. Returns the result
/// with the error behind a fault, if any.
fn reply_to_machines<R: Read + Drop>(
    rt: &HostRuntime,
    asked: &Asked,
    size: Option<u64>,
    input: R,
    seen: &Cell<u64>,
) -> (Result<(), Fault>, Option<io::Error>) {
    let progress = if rt.stderr().is_terminal() && is_output_kept(rt) {
        Some(Progress::new(rt, LineCount { seen }, size))
    } else {
        None
    };
    let shown = progress.as_ref();
    let mut reader = Watched::new(Observed::new(input, shown));
    let mut writer = Watched::new(Observed::new(rt.stdout(), shown));
    let limits = &asked.task.limits;
    let end = list_lines(rt.alloc(), limits, &mut reader, &mut writer, seen);
    if let Some(progress) = shown {
        progress.end();
    }
    let read_error = reader.into_inner().into_error();
    let write_error = writer.into_inner().into_error();
    let error = match &end {
        Err(Fault::Read) => read_error,
        Err(Fault::Write) => write_error,
        _ => None,
    };
    (end, error)
}

/// Prints the line for a result, or reports a fault, and returns the exit status.
fn report_end(
    rt: &HostRuntime,
    asked: &Asked,
    end: &Result<Cover, Fault>,
    error: Option<&io::Error>,
) -> u8
    ensures { IsReportStatus end.now result }
{
    let cover = match end {
        Ok(cover) => cover,
        Err(fault) => return report_list_fault(rt, asked, *fault, error),
    };
    let unshown: Option<&Progress<'_, LineCount<'_>>> = None;
    let mut writer = Watched::new(Observed::new(rt.stdout(), unshown));
    let written = write_report(rt.alloc(), &mut writer, &asked.task, cover);
    let error = writer.into_inner().into_error();
    match written {
        Ok(()) => status(end),
        Err(fault) => report_list_fault(rt, asked, fault, error.as_ref()),
    }
}

/// Walks along a list of `size` bytes, if known, and shows the progress. Returns the result with the error
/// behind a fault, if any.
fn cover_input<R: Read + Drop>(
    rt: &HostRuntime,
    asked: &Asked,
    size: Option<u64>,
    input: R,
    seen: &Cell<u64>,
) -> (Result<Cover, Fault>, Option<io::Error>) {
    // Standard output comes after the progress, so the two don't mix.
    let progress = if rt.stderr().is_terminal() {
        Some(Progress::new(rt, LineCount { seen }, size))
    } else {
        None
    };
    let shown = progress.as_ref();
    let mut reader = Watched::new(Observed::new(input, shown));
    let end = cover_list(rt.alloc(), &asked.task, &mut reader, seen);
    if let Some(progress) = shown {
        progress.end();
    }
    let error = reader.into_inner().into_error();
    (end, error)
}

/// Reports a fault, and returns the exit status.
fn report_list_fault(rt: &HostRuntime, asked: &Asked, fault: Fault, error: Option<&io::Error>) -> u8
    ensures { result ≡ 3 }
{
    let file = asked.file.as_ref().map(|file| file.as_str());
    report_fault(rt, PROGRAM, file, fault, error)
}

/// Prints the reason for doing no work, and returns the exit status: that of the refusal, or 3 if help or the
/// version can't be written.
fn report_refusal(rt: &HostRuntime, refusal: &Refusal) -> u8
    ensures { IsRefusalStatus refusal.now result }
{
    let (option, refused) = match refusal {
        Refusal::Common(stop) => return report_stop(rt, PROGRAM, stop),
        Refusal::Below(refused) => ("below", refused),
        Refusal::Line(refused) => ("line", refused),
    };
    let _ = rt.eprintln(MachineText {
        option,
        column: refused.column,
    });
    refusal.status()
}

/// Refuses the options of a walk beside `--lines`, and returns the exit status.
fn report_unused(rt: &HostRuntime) -> u8
    ensures { result ≡ 2 }
{
    let _ = eprintln!(rt;
        "cover: --lines reads machines; --below, --skeleton, --assume and --line are for verdict lines"
    );
    2
}
