//! The arguments of a process.
ghost use Rattle.std.specs.Prelude.{◌≡◌, IfErr, IfOk, map};
ghost use Rattle.std.specs.String.{string_bytes};
ghost use Rattle.bb_terminal.specs.Arguments.{IsUnread};

use bb_command::Stop;
use std::alloc::{AllocError, Global};
use std::env;
use std::io::ErrorKind;

/// Reads the process's arguments, which must be UTF-8.
pub fn read_arguments(rt: &HostRuntime) -> Result<Vec<String>, Stop>
    ensures { IfErr result IsUnread }
{
    match env::args(rt) {
        Ok(arguments) => Ok(arguments.collect(rt.alloc())?),
        Err(error) if error.kind() == ErrorKind::InvalidData => {
            let text = String::from_str(rt.alloc(), "error: an argument is not UTF-8\n")?;
            Err(Stop::Words(text))
        }
        Err(_) => Err(Stop::Memory),
    }
}

/// The arguments as words.
pub fn words_of<'a>(alloc: Global, arguments: &'a [String]) -> Result<Vec<&'a str>, AllocError>
    ensures { IfOk result (λ words. map (λ word. word.now) words.items ≡ map string_bytes arguments.now) }
{
    arguments.iter().map(|word| word.as_str()).collect(alloc)
}
