//! Messages that begin with a program's name.

use bb_lines::fault::Fault;
use bb_machine::LimitFault;
use std::fmt;
use std::fmt::{Display, Formatter};

/// The cause of an early end.
#[derive(Clone, Copy)]
pub struct FaultText {
    pub program: &'static str,
    pub fault: Fault,
}

impl Display for FaultText {
    fn fmt<W: fmt::Write>(&self, f: &mut Formatter<W>) -> fmt::Result {
        let program = self.program;
        match self.fault {
            Fault::Memory => write!(f, "{program}: out of memory"),
            Fault::Read => write!(f, "{program}: read failed"),
            Fault::Write => write!(f, "{program}: write failed"),
        }
    }
}

/// The cause of refused limits.
#[derive(Clone, Copy)]
pub struct LimitText {
    pub program: &'static str,
    pub fault: LimitFault,
}

impl Display for LimitText {
    fn fmt<W: fmt::Write>(&self, f: &mut Formatter<W>) -> fmt::Result {
        let program = self.program;
        match self.fault {
            LimitFault::Steps => write!(f, "{program}: steps out of range"),
            LimitFault::Cells => write!(f, "{program}: cells out of range"),
            LimitFault::Depth => write!(f, "{program}: depth out of range"),
            LimitFault::Nodes => write!(f, "{program}: nodes out of range"),
            LimitFault::DepthCells => write!(f, "{program}: depth does not fit in cells"),
        }
    }
}
