//! The cost of runs and walks.
ghost use Rattle.std.specs.Prelude.{◌≡◌, max};
ghost use Rattle.bb_sim.specs.Meter.{greatest_of, zero_meter};

/// The cost so far of the runs and walks under one meter.
#[derive(Clone, Copy, Debug, PartialEq, Eq)]
pub struct Meter {
    /// Steps made.
    pub steps: u64,
    /// The widest window of a run, in cells.
    pub most_cells: u64,
    /// Nodes of the backward tree entered.
    pub nodes: u64,
    /// The most levels of the backward tree entered.
    pub most_levels: u64,
}

impl Meter {
    /// Nothing counted yet.
    pub fn new() -> Meter
        ensures { result ≡ zero_meter }
    {
        Meter {
            steps: 0,
            most_cells: 0,
            nodes: 0,
            most_levels: 0,
        }
    }

    /// Counts the start of a run: its window is one cell.
    #[inline(always)]
    pub fn begin_run(&mut self)
        ensures { self.new ≡ record self.old { most_cells = max self.old.most_cells 1 } }
    {
        self.most_cells = self.most_cells.max(1);
    }

    /// The greater of each count.
    pub fn greatest(self, other: Meter) -> Meter
        ensures { result ≡ greatest_of self other }
    {
        Meter {
            steps: self.steps.max(other.steps),
            most_cells: self.most_cells.max(other.most_cells),
            nodes: self.nodes.max(other.nodes),
            most_levels: self.most_levels.max(other.most_levels),
        }
    }
}
