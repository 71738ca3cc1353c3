//! Verdicts on the machines of a list, a line each: by the definition, or each machine in a single pass.
ghost use Rattle.std.specs.Prelude.{◌≡◌, ◌↔◌, false, true, IsTrue};
ghost use Rattle.bb_tree.specs.Path.{depth_of};
ghost use Rattle.bb_decide.specs.Bench.{BenchHasCells};
ghost use Rattle.bb_lines.specs.Watched.{is_marked, watched_inner};
ghost use Rattle.bb_run.specs.BorneOut.{VerdictsAreBorneOut};
ghost use Rattle.bb_run.specs.Ends.{DecideEnds, DecideInSinglePassEnds};
ghost use Rattle.bb_run.specs.FewCells.{FewCellsAreReplied};

use crate::counts::VerdictCounts;
use crate::decider::{Decide, reply_to_lines};
use crate::summary::Summary;
use bb_cert::Verdict;
use bb_decide::{Bench, Plan, SpreadKeys, decide, decide_in_single_pass};
use bb_lines::fault::Fault;
use bb_lines::watched::Watched;
use bb_machine::laws::texts_differ;
use bb_machine::{Limits, Machine};
use bb_sim::Meter;
use bb_tape::{Memory, Tape};
use std::io::{Read, Write};

/// By the definition of a verdict: a run for the simulation, and one more for each search.
struct InTurn;

impl Decide for InTurn {
    ghost use Rattle.bb_run.specs.Seen.{CountsExactly};

    ghost counts = { CountsExactly };

    #[inline(always)]
    fn decide<T: Tape>(
        machine: &Machine,
        limits: &Limits,
        plan: Plan,
        bench: &mut Bench<T>,
        meter: &mut Meter,
    ) -> Result<Verdict, Memory> {
        decide(machine, limits, plan, bench, meter)
    }
}

/// By a single-pass run for all verdicts.
struct InSinglePass;

impl Decide for InSinglePass {
    ghost use Rattle.bb_run.specs.Seen.{CountsInSinglePass};

    ghost counts = { CountsInSinglePass };

    #[inline(always)]
    fn decide<T: Tape>(
        machine: &Machine,
        limits: &Limits,
        plan: Plan,
        bench: &mut Bench<T>,
        meter: &mut Meter,
    ) -> Result<Verdict, Memory> {
        decide_in_single_pass(machine, limits, plan, &SpreadKeys, bench, meter)
    }
}

/// Writes the verdict line of each machine of a list, and a refusal for each other line.
///
/// A line ends at a newline; a last line without one counts if it isn't empty. After a fault, don't use the
/// reader and the writer again.
pub fn run_decide<R: Read, W: Write, T: Tape>(
    reader: &mut Watched<R>,
    writer: &mut Watched<W>,
    limits: &Limits,
    plan: Plan,
    bench: &mut Bench<T>,
) -> Result<Summary, Fault>
    requires reader { is_marked reader.old ≡ false }
    requires writer { is_marked writer.old ≡ false }
    requires tapes { BenchHasCells T.view limits.now.cells bench.old }
    requires path { depth_of bench.old.path ≡ limits.now.depth }

    // The result of the run, and the output written.
    ensures ends { DecideEnds limits.now plan
        (R.remaining (watched_inner reader.old)) (R.remaining (watched_inner reader.new))
        (W.contents (watched_inner writer.old)) (W.contents (watched_inner writer.new)) result }

    // The meaning of each verdict written.
    ensures borne_out { VerdictsAreBorneOut limits.now plan }
    ensures few_cells { FewCellsAreReplied limits.now plan }

    // When each fault comes.
    ensures memory { result ≡ Err Fault.Memory → IsTrue T.GROWS }
    ensures read { (result ≡ Err Fault.Read) ↔ (is_marked reader.new ≡ true) }
    ensures write { (result ≡ Err Fault.Write) ↔ (is_marked writer.new ≡ true) }

    ensures tapes { BenchHasCells T.view limits.now.cells bench.new }
    ensures path { depth_of bench.new.path ≡ depth_of bench.old.path }
{
    texts_differ();
    let counts = VerdictCounts::default();
    reply_to_lines::<R, W, T, InTurn>(reader, writer, limits, plan, bench, &counts)
}

/// Writes the same as [`run_decide`], but decides each machine in a single pass. The summary has the steps really
/// made: fewer than there, if a verdict is early. A line is counted in `counts` once its reply is known,
/// before it is written.
pub fn run_decide_in_single_pass<R: Read, W: Write, T: Tape>(
    reader: &mut Watched<R>,
    writer: &mut Watched<W>,
    limits: &Limits,
    plan: Plan,
    bench: &mut Bench<T>,
    counts: &VerdictCounts,
) -> Result<Summary, Fault>
    requires reader { is_marked reader.old ≡ false }
    requires writer { is_marked writer.old ≡ false }
    requires tapes { BenchHasCells T.view limits.now.cells bench.old }
    requires path { depth_of bench.old.path ≡ limits.now.depth }

    // The result of the run, and the output written.
    ensures ends { DecideInSinglePassEnds limits.now plan
        (R.remaining (watched_inner reader.old)) (R.remaining (watched_inner reader.new))
        (W.contents (watched_inner writer.old)) (W.contents (watched_inner writer.new)) result }

    // The meaning of each verdict written.
    ensures borne_out { VerdictsAreBorneOut limits.now plan }
    ensures few_cells { FewCellsAreReplied limits.now plan }

    // When each fault comes.
    ensures memory { result ≡ Err Fault.Memory → IsTrue T.GROWS }
    ensures read { (result ≡ Err Fault.Read) ↔ (is_marked reader.new ≡ true) }
    ensures write { (result ≡ Err Fault.Write) ↔ (is_marked writer.new ≡ true) }

    ensures tapes { BenchHasCells T.view limits.now.cells bench.new }
    ensures path { depth_of bench.new.path ≡ depth_of bench.old.path }
{
    texts_differ();
    reply_to_lines::<R, W, T, InSinglePass>(reader, writer, limits, plan, bench, counts)
}
