//! Why a run ended early.
ghost use Rattle.std.specs.Prelude.{Some};
ghost use Rattle.bb_lines.specs.Fault.{fault_text};

use std::error::Error;
use std::fmt;

/// Why a run ended before all lines were answered.
#[derive(Clone, Copy, Debug, PartialEq, Eq)]
pub enum Fault {
    /// An allocation failed. The output has the replies to the lines before the current one.
    Memory = 1,
    /// A read failed. The output has the replies to all lines completed before it.
    Read = 2,
    /// A write or the flush failed, or a write accepted no byte. The output is a prefix of the replies.
    Write = 3,
}

impl fmt::Display for Fault {
    ghost output = { λ fault. Some (fault_text fault) };

    fn fmt<W: fmt::Write>(&self, f: &mut fmt::Formatter<W>) -> fmt::Result {
        match self {
            Fault::Memory => write!(f, "bb: out of memory"),
            Fault::Read => write!(f, "bb: read failed"),
            Fault::Write => write!(f, "bb: write failed"),
        }
    }
}

impl Error for Fault {}
