//! Steps in registers that widen no window, keep nothing and find nothing.
ghost use Rattle.bb_decide.specs.inside.Sprints.{SprintsTo};

use bb_machine::PackedTable;
use bb_registers::{Barrier, BlockRun};

/// A run within 64 cells, and the lowest and the highest bit of its head so far.
#[derive(Clone, Copy, Debug)]
pub(crate) struct Sprint {
    pub(crate) run: BlockRun,
    pub(crate) least: u64,
    pub(crate) greatest: u64,
}

impl Sprint {
    /// Makes all steps before a barrier. It works on copies, so the loop has its numbers in registers. `SELECTS`
    /// as in `BlockRun::advance`.
    #[inline(always)]
    pub(crate) fn go_on<const SELECTS: bool>(
        &self,
        table: &PackedTable,
        barrier: &Barrier,
    ) -> Sprint
        ensures { SprintsTo table.now barrier.now self.now result }
    {
        let mut sprint = *self;
        let table = *table;
        let barrier = *barrier;
        while sprint.run.advance::<SELECTS>(&table, &barrier) {
            let head = sprint.run.registers.head;
            sprint.least = sprint.least.min(head);
            sprint.greatest = sprint.greatest.max(head);
        }
        sprint
    }
}
