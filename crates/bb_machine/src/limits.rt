//! The limits of a run and of a walk.
ghost use Rattle.std.specs.Prelude.{◌≡◌, ◌≤◌, IfOk, IfErr};

use std::fmt;
use std::fmt::{Display, Formatter};
use std::marker::Model;

/// The greatest limit of the steps of one simulation.
pub const MAX_STEPS: u64 = 1_000_000_000_000;

/// The greatest limit of the cells of one tape.
pub const MAX_CELLS: u64 = 67_108_864;

/// The greatest limit of the levels of one backward tree.
pub const MAX_LEVELS: u64 = 10_000;

/// The greatest limit of the nodes of one backward tree.
pub const MAX_NODES: u64 = 1_000_000_000_000;

/// The reason for rejecting limits. Programs print its text.
#[derive(Clone, Copy, Debug, PartialEq, Eq)]
pub enum LimitFault {
    /// The steps are out of their range.
    Steps = 1,
    /// The cells are out of their range.
    Cells = 2,
    /// The levels are out of their range.
    Depth = 3,
    /// The nodes are out of their range.
    Nodes = 4,
    /// 2 times the levels, less 1, is above the cells.
    DepthCells = 5,
}

impl Display for LimitFault {
    ghost use Rattle.std.specs.Prelude.{Some};
    ghost use Rattle.bb_machine.specs.Limits.{fault_text};

    ghost output = { λ fault. Some (fault_text fault) };

    fn fmt<W: fmt::Write>(&self, f: &mut Formatter<W>) -> fmt::Result {
        f.write_str(match self {
            LimitFault::Steps => "bb: steps out of range",
            LimitFault::Cells => "bb: cells out of range",
            LimitFault::Depth => "bb: depth out of range",
            LimitFault::Nodes => "bb: nodes out of range",
            LimitFault::DepthCells => "bb: depth does not fit in cells",
        })
    }
}

impl std::error::Error for LimitFault {}

/// The limits of one machine's work.
#[derive(Clone, Copy, Debug, PartialEq, Eq)]
pub struct Limits {
    steps: u64,
    cells: u64,
    depth: u64,
    nodes: u64,
}

impl Model for Limits {
    ghost use Rattle.bb_machine.specs.Limits.{Bounds, IsAccepted};

    ghost Value = { Bounds };

    ghost view = { λ l. record { steps = l.steps; cells = l.cells; depth = l.depth; nodes = l.nodes } };

    ghost invariant = { λ l. IsAccepted
        (record { steps = l.steps; cells = l.cells; depth = l.depth; nodes = l.nodes }) };

    ghost inverse = { λ b. record { steps = b.steps; cells = b.cells; depth = b.depth; nodes = b.nodes } };
}

impl Limits {
    ghost use Rattle.bb_machine.specs.Limits.{Bounds, IsAccepted, IsFirstFault};

    /// The limits of `t` steps, `s` cells, `d` levels and `n` nodes, or their first fault, in the order of
    /// the variants.
    pub fn new(t: u64, s: u64, d: u64, n: u64) -> Result<Limits, LimitFault>
        ensures accepted { IfOk result (λ limits. IsAccepted limits) }
        ensures given { IfOk result
            (λ limits. limits ≡ record { steps = t; cells = s; depth = d; nodes = n }) }
        ensures first_fault { IfErr result
            (IsFirstFault (record { steps = t; cells = s; depth = d; nodes = n })) }
    {
        if t > MAX_STEPS {
            Err(LimitFault::Steps)
        } else if s < 1 || s > MAX_CELLS {
            Err(LimitFault::Cells)
        } else if d > MAX_LEVELS {
            Err(LimitFault::Depth)
        } else if n > MAX_NODES {
            Err(LimitFault::Nodes)
        } else if 2 * d > s + 1 {
            Err(LimitFault::DepthCells)
        } else {
            Ok(Limits {
                steps: t,
                cells: s,
                depth: d,
                nodes: n,
            })
        }
    }

    /// These limits, but for the steps: as many, no more than before.
    #[inline]
    pub fn with_steps(&self, steps: u64) -> Limits
        requires { steps ≤ self.now.steps }
        ensures { result ≡ record self.now { steps = steps } }
    {
        Limits { steps, ..*self }
    }

    /// States the range of all limits, for proofs. It does nothing at run time.
    #[inline(always)]
    pub fn show_accepted(&self)
        ensures accepted { IsAccepted self.now }
    {
        let _ = &self.steps;
    }

    /// The greatest number of steps of one simulation.
    #[inline]
    pub fn steps(&self) -> u64
        ensures value { result ≡ self.now.steps }
        ensures accepted { IsAccepted self.now }
    {
        self.steps
    }

    /// The greatest number of cells of one tape.
    #[inline]
    pub fn cells(&self) -> u64
        ensures value { result ≡ self.now.cells }
        ensures accepted { IsAccepted self.now }
    {
        self.cells
    }

    /// The greatest number of levels of the backward tree.
    #[inline]
    pub fn depth(&self) -> u64
        ensures value { result ≡ self.now.depth }
        ensures accepted { IsAccepted self.now }
    {
        self.depth
    }

    /// The greatest number of nodes of the backward tree.
    #[inline]
    pub fn nodes(&self) -> u64
        ensures value { result ≡ self.now.nodes }
        ensures accepted { IsAccepted self.now }
    {
        self.nodes
    }
}
