//! Does the work of a request, and returns its result.
ghost use Rattle.std.specs.Prelude.{◌≡◌, ◌≢◌, ◌⊎◌, ◌↔◌, false, true, IsTrue};
ghost use Rattle.std.specs.String.{string_bytes};
ghost use Rattle.bb_machine.specs.declared.plan.Plan.{Plan};
ghost use Rattle.bb_lines.specs.Watched.{is_marked, watched_inner};
ghost use Rattle.bb_run.specs.BorneOut.{VerdictsAreBorneOut};
ghost use Rattle.bb_run.specs.CheckEnds.{CheckEnds};
ghost use Rattle.bb_run.specs.Ends.{TraceEnds};
ghost use Rattle.bb_terminal.specs.NotBegun.{IsNotBegun};
ghost use Rattle.bb.specs.Ends.{IsCut, ServeEnds, ServeInSinglePassEnds, end_status};

use crate::progress::Counts;
use bb_cert::ring_pair;
use bb_command::{Asked, Work};
use bb_lines::fault::Fault;
use bb_lines::watched::Watched;
use bb_machine::{Limits, Machine};
use bb_run::laws::verdicts_are_borne_out;
use bb_run::{
    AnswerCounts, Summary, ring_bench, run_check_with_counts, run_decide,
    run_decide_in_single_pass, run_trace,
};
use bb_tape::RingTape;
use std::alloc::Global;
use std::io::{Read, Write};

/// Does the work of a request on rings and a path of its own, allocated once. A trace reads nothing. The
/// summary of a decided list has the exact cost of each machine by the definition of a verdict.
pub fn serve<R: Read, W: Write>(
    alloc: Global,
    asked: &Asked,
    reader: &mut Watched<R>,
    writer: &mut Watched<W>,
) -> Result<Summary, Fault>
    requires reader { is_marked reader.old ≡ false }
    requires writer { is_marked writer.old ≡ false }

    // The result of the work, the input read and the output written; or an allocation failure before it
    // started.
    ensures ends { ServeEnds asked.now.work asked.now.limits
        (R.remaining (watched_inner reader.old)) (R.remaining (watched_inner reader.new))
        (W.contents (watched_inner writer.old)) (W.contents (watched_inner writer.new)) result }

    // The meaning of each verdict written.
    ensures borne_out { (plan : Plan) → asked.now.work ≡ Work.Decide plan
        → VerdictsAreBorneOut asked.now.limits plan }

    // Memory runs out only before it begins: nothing was read or written.
    ensures memory { result ≡ Err Fault.Memory → IsNotBegun
        (R.remaining (watched_inner reader.old)) (R.remaining (watched_inner reader.new))
        (W.contents (watched_inner writer.old)) (W.contents (watched_inner writer.new)) result }

    ensures read { (result ≡ Err Fault.Read) ↔ (is_marked reader.new ≡ true) }
    ensures write { (result ≡ Err Fault.Write) ↔ (is_marked writer.new ≡ true) }
{
    verdicts_are_borne_out();
    let limits = asked.limits;
    match &asked.work {
        Work::Decide(plan) => match ring_bench(alloc, &limits) {
            Ok(mut bench) => run_decide(reader, writer, &limits, *plan, &mut bench),
            Err(_) => Err(Fault::Memory),
        },
        Work::Check => check_list(alloc, &limits, reader, writer, &AnswerCounts::default()),
        Work::Trace(text) => trace_text(alloc, &limits, text, writer),
    }
}

/// The same as [`serve`], byte for byte, but each machine of a list is decided in a single pass: a halt or a pair
/// costs about as many steps as its verdict names, and the summary has the steps really made. `counts` has
/// the lines answered so far.
pub fn serve_in_single_pass<R: Read, W: Write>(
    alloc: Global,
    asked: &Asked,
    reader: &mut Watched<R>,
    writer: &mut Watched<W>,
    counts: &Counts,
) -> Result<Summary, Fault>
    requires reader { is_marked reader.old ≡ false }
    requires writer { is_marked writer.old ≡ false }

    // The result of the work, the input read and the output written; or an allocation failure before it
    // started.
    ensures ends { ServeInSinglePassEnds asked.now.work asked.now.limits
        (R.remaining (watched_inner reader.old)) (R.remaining (watched_inner reader.new))
        (W.contents (watched_inner writer.old)) (W.contents (watched_inner writer.new)) result }

    // The meaning of each verdict written.
    ensures borne_out { (plan : Plan) → asked.now.work ≡ Work.Decide plan
        → VerdictsAreBorneOut asked.now.limits plan }

    // Memory runs out only before it begins: nothing was read or written.
    ensures memory { result ≡ Err Fault.Memory → IsNotBegun
        (R.remaining (watched_inner reader.old)) (R.remaining (watched_inner reader.new))
        (W.contents (watched_inner writer.old)) (W.contents (watched_inner writer.new)) result }

    ensures read { (result ≡ Err Fault.Read) ↔ (is_marked reader.new ≡ true) }
    ensures write { (result ≡ Err Fault.Write) ↔ (is_marked writer.new ≡ true) }
{
    verdicts_are_borne_out();
    let limits = asked.limits;
    match &asked.work {
        Work::Decide(plan) => match ring_bench(alloc, &limits) {
            Ok(mut bench) => run_decide_in_single_pass(
                reader,
                writer,
                &limits,
                *plan,
                &mut bench,
                &counts.verdicts,
            ),
            Err(_) => Err(Fault::Memory),
        },
        Work::Check => check_list(alloc, &limits, reader, writer, &counts.answers),
        Work::Trace(text) => trace_text(alloc, &limits, text, writer),
    }
}

/// Checks a list on rings of its own.
fn check_list<R: Read, W: Write>(
    alloc: Global,
    limits: &Limits,
    reader: &mut Watched<R>,
    writer: &mut Watched<W>,
    counts: &AnswerCounts,
) -> Result<Summary, Fault>
    requires reader { is_marked reader.old ≡ false }
    requires writer { is_marked writer.old ≡ false }
    ensures ends { CheckEnds limits.now
        (R.remaining (watched_inner reader.old)) (R.remaining (watched_inner reader.new))
        (W.contents (watched_inner writer.old)) (W.contents (watched_inner writer.new)) result
        ⊎ IsNotBegun
        (R.remaining (watched_inner reader.old)) (R.remaining (watched_inner reader.new))
        (W.contents (watched_inner writer.old)) (W.contents (watched_inner writer.new)) result }
    ensures memory { result ≡ Err Fault.Memory → IsNotBegun
        (R.remaining (watched_inner reader.old)) (R.remaining (watched_inner reader.new))
        (W.contents (watched_inner writer.old)) (W.contents (watched_inner writer.new)) result }
    ensures read { (result ≡ Err Fault.Read) ↔ (is_marked reader.new ≡ true) }
    ensures write { (result ≡ Err Fault.Write) ↔ (is_marked writer.new ≡ true) }
{
    match ring_pair(alloc, limits) {
        Ok((mut pair, mut path)) => {
            run_check_with_counts(reader, writer, limits, &mut pair, &mut path, counts)
        }
        Err(_) => Err(Fault::Memory),
    }
}

/// Traces the machine with a text on a ring of its own.
fn trace_text<W: Write>(
    alloc: Global,
    limits: &Limits,
    text: &String,
    writer: &mut Watched<W>,
) -> Result<Summary, Fault>
    requires writer { is_marked writer.old ≡ false }
    ensures ends { TraceEnds limits.now (string_bytes text.now)
        (W.contents (watched_inner writer.old)) (W.contents (watched_inner writer.new)) result
        ⊎ ((result ≡ Err Fault.Memory)
        × (W.contents (watched_inner writer.new) ≡ W.contents (watched_inner writer.old))) }
    ensures memory { result ≡ Err Fault.Memory
        → W.contents (watched_inner writer.new) ≡ W.contents (watched_inner writer.old) }
    ensures no_read { result ≢ Err Fault.Read }
    ensures write { (result ≡ Err Fault.Write) ↔ (is_marked writer.new ≡ true) }
{
    match RingTape::new(alloc, limits.cells()) {
        Ok(mut tape) => run_trace(text.as_str().as_bytes(), limits, &mut tape, writer),
        Err(_) => Err(Fault::Memory),
    }
}

/// The program's exit status: 0 for a clean summary, 1 for another one, 3 for a fault.
pub fn status(end: &Result<Summary, Fault>) -> u8
    ensures { result ≡ end_status end.now }
{
    match end {
        Ok(summary) if summary.clean => 0,
        Ok(_) => 1,
        Err(_) => 3,
    }
}

/// Whether the limit of cells cuts a trace: its text is a machine, and its summary isn't clean.
pub fn is_cut(work: &Work, end: &Result<Summary, Fault>) -> bool
    ensures { IsTrue result ↔ IsCut work.now end.now }
{
    match (work, end) {
        (Work::Trace(text), Ok(summary)) => {
            !summary.clean && Machine::can_read(text.as_str().as_bytes())
        }
        _ => false,
    }
}
