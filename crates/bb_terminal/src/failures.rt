//! The input of a program, and its reports of failures.
ghost use Rattle.std.specs.Prelude.{◌≡◌};
ghost use Rattle.bb_terminal.specs.Status.{IsStopStatus};

use crate::messages::{FaultText, LimitText};
use bb_command::Stop;
use bb_lines::fault::Fault;
use std::fs::File;
use std::io::{Error, ErrorKind};
use std::os::unix::fs::{FileTypeExt, MetadataExt};
use std::{fs, io};

/// Opens a file, and returns its size, if it is a regular one.
pub fn open_list(rt: &HostRuntime, path: &String) -> io::Result<(File, Option<u64>)> {
    let file = fs::open(rt, path)?;
    let size = file.metadata().ok().filter(|data| data.is_file());
    Ok((file, size.map(|data| data.len())))
}

/// Prints the failed operation and the reason: of the list `file` or standard input, or of standard output.
/// It doesn't mention a closed pipe.
pub fn print_failure(
    rt: &HostRuntime,
    file: Option<&str>,
    fault: Fault,
    error: &Error,
) -> io::Result<()> {
    if error.kind() == ErrorKind::BrokenPipe {
        return Ok(());
    }
    match (fault, file) {
        (Fault::Read, Some("-")) => {
            eprintln!(rt;
                "-: {error}; - is no file name here, and without FILE standard input is read"
            )
        }
        (Fault::Read, Some(file)) => eprintln!(rt; "{file}: {error}"),
        (Fault::Read, None) => eprintln!(rt; "standard input: {error}"),
        _ => eprintln!(rt; "standard output: {error}"),
    }
}

/// Reports a fault of a program with this name, and its reason if there is one. Returns the exit status.
pub fn report_fault(
    rt: &HostRuntime,
    program: &'static str,
    file: Option<&str>,
    fault: Fault,
    error: Option<&Error>,
) -> u8
    ensures { result ≡ 3 }
{
    let _ = rt.eprintln(FaultText { program, fault });
    if let Some(error) = error {
        let _ = print_failure(rt, file, fault, error);
    }
    3
}

/// Prints the reason for doing no work, and returns the exit status: that of the stop, or 3 if help or the
/// version can't be written.
pub fn report_stop(rt: &HostRuntime, program: &'static str, stop: &Stop) -> u8
    ensures { IsStopStatus stop.now result }
{
    match (print_stop(rt, program, stop), stop) {
        (Err(_), Stop::Help(_)) => report_fault(rt, program, None, Fault::Write, None),
        _ => stop.status(),
    }
}

/// Prints help to standard output, and any other cause to standard error.
fn print_stop(rt: &HostRuntime, program: &'static str, stop: &Stop) -> io::Result<()> {
    match stop {
        Stop::Help(text) => rt.print(text),
        Stop::Words(text) => rt.eprint(text),
        Stop::Limits(fault) => rt.eprintln(LimitText {
            program,
            fault: *fault,
        }),
        Stop::Memory => rt.eprintln(FaultText {
            program,
            fault: Fault::Memory,
        }),
    }
}

/// Whether standard output is a file or the null device, so that nobody watches it.
pub fn is_output_kept(rt: &HostRuntime) -> bool {
    let Ok(output) = fs::metadata(rt, "/dev/stdout") else {
        return false;
    };
    if output.is_file() {
        return true;
    }
    match fs::metadata(rt, "/dev/null") {
        Ok(null) => output.file_type().is_char_device() && output.rdev() == null.rdev(),
        Err(_) => false,
    }
}
