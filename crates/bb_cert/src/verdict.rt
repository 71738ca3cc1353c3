//! Verdicts on machines, and their lines.

pub mod line;
pub mod reader;
/// The side of a machine's records: left or right of the start.
#[derive(Clone, Copy, Debug, PartialEq, Eq)]
pub enum Side {
    /// The left.
    L,
    /// The right.
    R,
}

/// The limit that left a machine undecided.
#[derive(Clone, Copy, Debug, PartialEq, Eq)]
pub enum Why {
    /// The limit of steps.
    Steps,
    /// The limit of cells.
    Cells,
}

/// The extent of two agreeing records on the tape.
#[derive(Clone, Copy, Debug, PartialEq, Eq)]
pub struct Extent {
    /// How many cells farther out the second one is.
    pub shift: u64,
    /// The number of agreeing cells: from the first record's head to the head's position nearest to the start
    /// until the second, both included.
    pub length: u64,
}

/// The verdict on a machine. Steps count from the start, step 0.
#[derive(Clone, Copy, Debug, PartialEq, Eq)]
pub enum Verdict {
    /// It halts after so many steps, with so many nonzero cells.
    Halt {
        steps: u64,
        score: u64,
    },
    /// The configurations at two steps are the same.
    Cycler {
        first: u64,
        second: u64,
    },
    /// The records of a side at two steps agree; a claim may give their extent.
    Translated {
        side: Side,
        first: u64,
        second: u64,
        extent: Option<Extent>,
    },
    /// The backward tree ends in so many levels, with so many nodes.
    Backward {
        levels: u64,
        nodes: u64,
    },
    /// Nothing was found within the limits.
    Undecided(Why),
}
