//! Replies to the lines of a list with verdicts, for each way to decide a machine.
ghost use Rattle.std.specs.Prelude.{◌≡◌, ◌↔◌, false, true, IfOk, IsTrue, OnErr, OnOk};
ghost use Rattle.bb_machine.specs.Limits.{Bounds};
ghost use Rattle.bb_machine.specs.Machine.{Table};
ghost use Rattle.bb_machine.specs.declared.plan.Plan.{Plan};
ghost use Rattle.bb_sim.specs.declared.meter.Meter.{Meter};
ghost use Rattle.bb_cert.specs.declared.verdict.reader.Line.{Line};
ghost use Rattle.bb_tree.specs.Path.{depth_of};
ghost use Rattle.bb_cert.specs.verdict.Line.{IsLineOf, line_text};
ghost use Rattle.bb_cert.specs.verdict.Verdict.{HasNumbers};
ghost use Rattle.bb_decide.specs.Bench.{BenchHasCells};
ghost use Rattle.bb_decide.specs.Cost.{IsWithinCost};
ghost use Rattle.bb_decide.specs.Verdict.{IsVerdict};
ghost use Rattle.bb_lines.specs.Ends.{ListEnds};
ghost use Rattle.bb_lines.specs.Watched.{is_marked, watched_inner};
ghost use Rattle.bb_run.specs.Reply.{IsReply};
ghost use Rattle.bb_run.specs.Seen.{SawLines};

use crate::counts::VerdictCounts;
use crate::summary::Summary;
use crate::tally::Tally;
use arrayvec::ArrayVec;
use bb_cert::Verdict;
use bb_decide::{Bench, Plan};
use bb_lines::fault::Fault;
use bb_lines::lines::run;
use bb_lines::responder::{REPLY, Responder};
use bb_lines::watched::Watched;
use bb_machine::{LINE, Limits, Machine};
use bb_sim::Meter;
use bb_tape::{Memory, Tape};
use std::alloc::AllocError;
use std::io::{Read, Write};
use std::marker::PhantomData;

/// A way to decide a machine.
pub(crate) trait Decide {
    // The cost of deciding a machine within bounds, by a plan.
    ghost counts: { Bounds → Plan → Table → Meter → Type 0 };

    /// Decides a machine, and records the cost in `meter`.
    fn decide<T: Tape>(
        machine: &Machine,
        limits: &Limits,
        plan: Plan,
        bench: &mut Bench<T>,
        meter: &mut Meter,
    ) -> Result<Verdict, Memory>
        requires tapes { BenchHasCells T.view limits.now.cells bench.old }
        requires path { depth_of bench.old.path ≡ limits.now.depth }
        ensures verdict { IfOk result (IsVerdict machine.now limits.now plan) }
        ensures numbers { IfOk result HasNumbers }
        ensures line { IfOk result (λ verdict.
            IsLineOf (Line.Claim machine.now verdict) (line_text machine.now verdict)) }
        ensures counted { OnOk result (counts limits.now plan machine.now meter.new) }
        ensures within { IsWithinCost limits.now meter.new }
        ensures tapes { BenchHasCells T.view limits.now.cells bench.new }
        ensures path { depth_of bench.new.path ≡ depth_of bench.old.path }
        ensures memory { OnErr result (IsTrue T.GROWS) };
}

/// Replies to a line, each machine decided in the way of `D`.
#[derive(Drop)]
struct Decider<'a, T, D> {
    limits: Limits,
    plan: Plan,
    bench: &'a mut Bench<T>,
    tally: Tally<'a>,
    way: PhantomData<D>,
}

impl<T: Tape, D: Decide> Responder for Decider<'_, T, D> {
    ghost use Rattle.std.specs.Prelude.{◌≡◌, ◌+◌};
    ghost use Rattle.std.proofs.Common.{rules};
    ghost use Rattle.bb_machine.specs.declared.machine.TheConstants.{LINE};
    ghost use Rattle.bb_tree.specs.Path.{depth_of};
    ghost use Rattle.bb_decide.specs.Bench.{BenchHasCells};
    ghost use Rattle.bb_run.specs.Reply.{IsReply};
    ghost use Rattle.bb_run.specs.Seen.{SawBy};
    ghost use Rattle.bb_run.specs.KeptBytes.{reply_kept, reply_of_kept, saw_of_kept};

    ghost replies_with = { λ d line reply. IsReply d.limits d.plan line reply };

    ghost saw = { λ a line b. (b.limits ≡ a.limits) × (b.plan ≡ a.plan)
        × SawBy (D.counts a.limits a.plan) a.tally.summary line b.tally.summary b.tally.last_cost };

    ghost cost = { λ d. d.tally.last_cost };

    ghost keeps = { λ a b. (b.limits ≡ a.limits) × (b.plan ≡ a.plan)
        × (b.bench.ghost_name ≡ a.bench.ghost_name) };

    ghost is_ready = { λ d. BenchHasCells T.view d.limits.cells d.bench.now
        × (depth_of d.bench.now.path ≡ d.limits.depth) };

    ghost GROWS = { T.GROWS };

    ghost KEEP = { LINE + 1 };

    ghost keeps_at_first = { Prim.search rules };

    ghost keeps_on = { Prim.search rules };

    ghost keeps_reply = { λ a b keeps line text reply.
        reply_kept b.limits a.limits b.plan a.plan line text keeps.0 keeps.1 reply };

    ghost keeps_some = { Prim.search rules };

    ghost keeps_few = { Prim.search rules };

    ghost reply_by_kept = { λ a line text reply. reply_of_kept a.limits a.plan line text reply };

    ghost saw_by_kept = { λ a line b saw. (
      saw.0,
      saw.1,
      saw_of_kept (D.counts a.limits a.plan) line
          a.tally.summary b.tally.summary b.tally.last_cost saw.2,
    ) };

    fn bytes_kept(&self) -> usize {
        LINE + 1
    }

    fn respond(&mut self, line: &[u8], text: &mut ArrayVec<u8, REPLY>) -> Result<u64, AllocError> {
        if !self.tally.read(line, text) {
            return Ok(0);
        }
        self.limits.show_accepted();
        let mut meter = Meter::new();
        let Ok(verdict) = D::decide(
            &self.tally.machine,
            &self.limits,
            self.plan,
            self.bench,
            &mut meter,
        ) else {
            return Err(AllocError);
        };
        Ok(self.tally.reply(line, &verdict, meter, text))
    }
}

/// Writes the verdict line of each machine of a list, decided in the way of `D`, and a refusal for each other
/// line.
pub(crate) fn reply_to_lines<R: Read, W: Write, T: Tape, D: Decide>(
    reader: &mut Watched<R>,
    writer: &mut Watched<W>,
    limits: &Limits,
    plan: Plan,
    bench: &mut Bench<T>,
    counts: &VerdictCounts,
) -> Result<Summary, Fault>
    requires reader { is_marked reader.old ≡ false }
    requires writer { is_marked writer.old ≡ false }
    requires tapes { BenchHasCells T.view limits.now.cells bench.old }
    requires path { depth_of bench.old.path ≡ limits.now.depth }
    ensures ends { ListEnds (IsReply limits.now plan) (SawLines (D.counts limits.now plan))
        (R.remaining (watched_inner reader.old)) (R.remaining (watched_inner reader.new))
        (W.contents (watched_inner writer.old)) (W.contents (watched_inner writer.new)) result }
    ensures memory { result ≡ Err Fault.Memory → IsTrue T.GROWS }
    ensures read { (result ≡ Err Fault.Read) ↔ (is_marked reader.new ≡ true) }
    ensures write { (result ≡ Err Fault.Write) ↔ (is_marked writer.new ≡ true) }
    ensures tapes { BenchHasCells T.view limits.now.cells bench.new }
    ensures path { depth_of bench.new.path ≡ depth_of bench.old.path }
{
    let mut decider: Decider<'_, T, D> = Decider {
        limits: *limits,
        plan,
        bench,
        tally: Tally::new(counts),
        way: PhantomData,
    };
    run(reader, writer, &mut decider)?;
    Ok(decider.tally.summary)
}
