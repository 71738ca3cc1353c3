//! Rings for a whole list, made once: the only memory for deciding or checking a list.
ghost use Rattle.std.specs.Prelude.{◌≡◌, IfOk};
ghost use Rattle.bb_tree.specs.Path.{depth_of};
ghost use Rattle.bb_decide.specs.Bench.{BenchHasCells};

use bb_decide::Bench;
use bb_machine::Limits;
use bb_tape::{Memory, RingTape, Tape};
use std::alloc::Global;

/// A bench of three rings for machines under these limits.
pub fn ring_bench(alloc: Global, limits: &Limits) -> Result<Bench<RingTape>, Memory>
    ensures tapes { IfOk result (BenchHasCells ⟦<RingTape as Tape>⟧.view limits.now.cells) }
    ensures path { IfOk result (λ bench. depth_of bench.path ≡ limits.now.depth) }
{
    let cells = limits.cells();
    let run = RingTape::new(alloc, cells)?;
    let right = RingTape::new(alloc, cells)?;
    let left = RingTape::new(alloc, cells)?;
    Bench::new(alloc, run, right, left, limits)
}
