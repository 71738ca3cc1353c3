//! Advice on refused limits.

use crate::command::Numbers;
use bb_machine::LimitFault;
use bb_machine::limits::{MAX_CELLS, MAX_LEVELS, MAX_NODES, MAX_STEPS};
use std::fmt;
use std::fmt::{Display, Formatter};

/// The refused number, and an accepted value.
#[derive(Drop)]
pub struct Advice {
    /// The fault of the limits.
    pub fault: LimitFault,
    /// The numbers on the command line.
    pub numbers: Numbers,
}

impl Display for Advice {
    fn fmt<W: fmt::Write>(&self, f: &mut Formatter<W>) -> fmt::Result {
        let numbers = &self.numbers;
        match self.fault {
            LimitFault::Steps if numbers.is_of_trace => {
                write!(f, "--upto {} is not within 0 to {MAX_STEPS}", numbers.steps)
            }
            LimitFault::Steps => write!(
                f,
                "--steps {} is not within 0 to {MAX_STEPS}",
                numbers.steps
            ),
            LimitFault::Cells => write!(
                f,
                "--cells {} is not within 1 to {MAX_CELLS}",
                numbers.cells
            ),
            LimitFault::Depth => write!(
                f,
                "--depth {} is not within 0 to {MAX_LEVELS}",
                numbers.depth
            ),
            LimitFault::Nodes => write!(
                f,
                "--nodes {} is not within 0 to {MAX_NODES}",
                numbers.nodes
            ),
            LimitFault::DepthCells => write!(
                f,
                "--depth {} needs --cells {} or more; with --cells {} a depth up to {}",
                numbers.depth,
                numbers.depth.saturating_mul(2).saturating_sub(1),
                numbers.cells,
                numbers.cells.saturating_add(1) / 2
            ),
        }
    }
}
