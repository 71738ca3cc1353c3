//! The tapes and the path for deciding machines.
ghost use Rattle.std.specs.Prelude.{◌≡◌, IfOk};
ghost use Rattle.bb_tree.specs.Path.{depth_of};
ghost use Rattle.bb_decide.specs.Bench.{BenchHasCells, HasTapes};

use bb_cert::Path;
use bb_machine::Limits;
use bb_tape::{Memory, Tape};
use std::alloc::Global;

/// The tapes for deciding a machine, and the room for its walk. Each call resets those it uses.
#[derive(Drop)]
pub struct Bench<T> {
    /// The tape of the run at work.
    pub run: T,
    /// The saved tape for cyclers, and for records of the right side.
    pub right: T,
    /// The saved tape for records of the left side.
    pub left: T,
    /// The way through the backward tree.
    pub path: Path,
}

impl<T: Tape> Bench<T> {
    /// A bench of three tapes for machines under these limits. It allocates a path of their depth once.
    pub fn new(
        alloc: Global,
        run: T,
        right: T,
        left: T,
        limits: &Limits,
    ) -> Result<Bench<T>, Memory>
        requires run { (T.view run).limit ≡ limits.now.cells }
        requires right { (T.view right).limit ≡ limits.now.cells }
        requires left { (T.view left).limit ≡ limits.now.cells }
        ensures given { IfOk result (HasTapes run right left) }
        ensures room { IfOk result (BenchHasCells T.view limits.now.cells) }
        ensures path { IfOk result (λ bench. depth_of bench.path ≡ limits.now.depth) }
    {
        let path = Path::new(alloc, limits.depth())?;
        Ok(Bench {
            run,
            right,
            left,
            path,
        })
    }
}
