//! Rings for a whole list, made once: the only memory for its recurrences.
ghost use Rattle.std.specs.Prelude.{◌≡◌, IfOk};
ghost use Rattle.bb_tree.specs.Path.{depth_of};
ghost use Rattle.bb_recurrence.specs.Tapes.{TapesHaveCells};

use crate::finder::{Finder, Tapes};
use bb_cert::ring_pair;
use bb_machine::Limits;
use bb_tape::{Memory, RingTape, Tape};
use std::alloc::Global;

/// A finder on three rings, with a path, for recurrences under these limits.
pub fn ring_finder(alloc: Global, limits: &Limits) -> Result<Finder<RingTape>, Memory>
    ensures tapes { IfOk result (λ made.
        TapesHaveCells ⟦<RingTape as Tape>⟧.view limits.now.cells made.tapes) }
    ensures path { IfOk result (λ made. depth_of made.path ≡ limits.now.depth) }
{
    let (pair, path) = ring_pair(alloc, limits)?;
    let ahead = RingTape::new(alloc, limits.cells())?;
    Ok(Finder::new(Tapes::new(pair, ahead), path))
}
