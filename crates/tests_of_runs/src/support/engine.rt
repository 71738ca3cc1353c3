//! The two engines for deciding a list.
ghost use Rattle.std.specs.Prelude.{◌≡◌, false};
ghost use Rattle.bb_tree.specs.Path.{depth_of};
ghost use Rattle.bb_decide.specs.Bench.{BenchHasCells};
ghost use Rattle.bb_lines.specs.Watched.{is_marked};

use bb_decide::{Bench, Plan};
use bb_lines::fault::Fault;
use bb_lines::watched::Watched;
use bb_machine::Limits;
use bb_run::{Summary, VerdictCounts, run_decide, run_decide_in_single_pass};
use bb_tape::Tape;
use std::io::{Read, Write};

/// How the machines of a list are decided.
#[derive(Clone, Copy, Debug)]
pub(crate) enum Engine {
    /// By the definition of a verdict, one search after the other.
    InTurn,
    /// Each in a single pass.
    InSinglePass,
}

impl Engine {
    pub(crate) const BOTH: [Engine; 2] = [Engine::InTurn, Engine::InSinglePass];

    /// Decides a list.
    pub(crate) fn decide<R: Read, W: Write, T: Tape>(
        self,
        reader: &mut Watched<R>,
        writer: &mut Watched<W>,
        limits: &Limits,
        plan: Plan,
        bench: &mut Bench<T>,
    ) -> Result<Summary, Fault>
        requires reader { is_marked reader.old ≡ false }
        requires writer { is_marked writer.old ≡ false }
        requires tapes { BenchHasCells T.view limits.now.cells bench.old }
        requires path { depth_of bench.old.path ≡ limits.now.depth }
        ensures tapes { BenchHasCells T.view limits.now.cells bench.new }
        ensures path { depth_of bench.new.path ≡ limits.now.depth }
    {
        match self {
            Engine::InTurn => run_decide(reader, writer, limits, plan, bench),
            Engine::InSinglePass => {
                let counts = VerdictCounts::default();
                run_decide_in_single_pass(reader, writer, limits, plan, bench, &counts)
            }
        }
    }
}
