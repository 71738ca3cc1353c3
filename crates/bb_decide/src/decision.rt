//! The verdict on one machine.
ghost use Rattle.std.specs.Prelude.{◌≡◌, ◌≤◌, IfOk, IsTrue, OnErr, OnOk};
ghost use Rattle.bb_sim.specs.Run.{Never};
ghost use Rattle.bb_cert.specs.declared.checker.answer.Answer.{Answer};
ghost use Rattle.bb_cert.specs.declared.verdict.reader.Line.{Line};
ghost use Rattle.bb_cert.specs.checker.Answer.{IsAnswer, IsUndecided};
ghost use Rattle.bb_cert.specs.claims.Claim.{Claim, SaysNever};
ghost use Rattle.bb_cert.specs.verdict.Line.{IsLineOf, line_text};
ghost use Rattle.bb_tree.specs.Path.{depth_of};
ghost use Rattle.bb_cert.specs.verdict.Verdict.{HasNumbers};
ghost use Rattle.bb_decide.specs.Bench.{BenchHasCells};
ghost use Rattle.bb_decide.specs.FewCells.{DecidesFewCells};
ghost use Rattle.bb_decide.specs.inside.Search.{DecidersCount, DecidersFind, IsPromised};
ghost use Rattle.bb_decide.specs.inside.Search.{IsWithinDeciders, IsWithinRuns};
ghost use Rattle.bb_decide.specs.inside.Search.{SearchesCount, SearchesFind};
ghost use Rattle.bb_decide.specs.Sure.{KeepsEarlier};
ghost use Rattle.bb_decide.specs.Verdict.{IsVerdict};
ghost use Rattle.bb_decide.specs.Cost.{CountsCost, IsWithinCost};

use crate::bench::Bench;
use crate::cycle::cyclers;
use crate::reasoning::backward;
use crate::translation::translated;
use bb_cert::{Verdict, Why};
use bb_machine::{Limits, Machine, Plan};
use bb_sim::{Meter, Outcome, simulate};
use bb_tape::{Memory, Tape};

/// Resets `meter`, decides a machine, and records the cost in `meter`.
///
/// After an error the contents of the tapes are unspecified; the next call resets them.
#[inline(always)]
pub fn decide<T: Tape>(
    machine: &Machine,
    limits: &Limits,
    plan: Plan,
    bench: &mut Bench<T>,
    meter: &mut Meter,
) -> Result<Verdict, Memory>
    requires tapes { BenchHasCells T.view limits.now.cells bench.old }
    requires path { depth_of bench.old.path ≡ limits.now.depth }
    ensures verdict { IfOk result (IsVerdict machine.now limits.now plan) }
    ensures earlier { IfOk result (KeepsEarlier machine.now limits.now plan) }
    ensures few_cells { IfOk result (DecidesFewCells machine.now limits.now plan) }
    ensures numbers { IfOk result HasNumbers }
    ensures claim { IfOk result (Claim machine.now) }
    ensures never { IfOk result (λ verdict. SaysNever verdict → Never machine.now) }
    ensures confirmed { IfOk result (λ verdict. (IsUndecided verdict → ⊥)
        → IsAnswer machine.now limits.now verdict Answer.Ok) }
    ensures line { IfOk result (λ verdict.
        IsLineOf (Line.Claim machine.now verdict) (line_text machine.now verdict)) }
    ensures counted { OnOk result (CountsCost machine.now limits.now plan meter.new) }
    ensures within { IsWithinCost limits.now meter.new }
    ensures tapes { BenchHasCells T.view limits.now.cells bench.new }
    ensures path { depth_of bench.new.path ≡ depth_of bench.old.path }
    ensures memory { OnErr result (IsTrue T.GROWS) }
{
    let verdict = verdict_in_turn(machine, limits, plan, bench, meter)?;
    show_verdict(machine, limits, plan, &verdict);
    Ok(verdict)
}

/// States the consequences of the definition of a verdict, for proofs. It does nothing at run time.
#[inline(always)]
pub(crate) fn show_verdict(machine: &Machine, limits: &Limits, plan: Plan, verdict: &Verdict)
    requires verdict { IsVerdict machine.now limits.now plan verdict.now }
    requires numbers { HasNumbers verdict.now }
    ensures earlier { KeepsEarlier machine.now limits.now plan verdict.now }
    ensures few_cells { DecidesFewCells machine.now limits.now plan verdict.now }
    ensures claim { Claim machine.now verdict.now }
    ensures never { SaysNever verdict.now → Never machine.now }
    ensures confirmed { (IsUndecided verdict.now → ⊥)
        → IsAnswer machine.now limits.now verdict.now Answer.Ok }
    ensures line { IsLineOf (Line.Claim machine.now verdict.now) (line_text machine.now verdict.now) }
{
    machine.show_machine();
}

/// The verdict and its cost.
#[inline(always)]
fn verdict_in_turn<T: Tape>(
    machine: &Machine,
    limits: &Limits,
    plan: Plan,
    bench: &mut Bench<T>,
    meter: &mut Meter,
) -> Result<Verdict, Memory>
    requires tapes { BenchHasCells T.view limits.now.cells bench.old }
    requires path { depth_of bench.old.path ≡ limits.now.depth }
    ensures verdict { IfOk result (IsVerdict machine.now limits.now plan) }
    ensures numbers { IfOk result HasNumbers }
    ensures counted { OnOk result (CountsCost machine.now limits.now plan meter.new) }
    ensures within { IsWithinCost limits.now meter.new }
    ensures tapes { BenchHasCells T.view limits.now.cells bench.new }
    ensures path { depth_of bench.new.path ≡ depth_of bench.old.path }
    ensures memory { OnErr result (IsTrue T.GROWS) }
{
    *meter = Meter::new();
    limits.show_accepted();
    let why = match simulate(machine, &mut bench.run, limits, meter)? {
        Outcome::Halt { steps, score } => return Ok(Verdict::Halt { steps, score }),
        Outcome::NoSteps => Why::Steps,
        Outcome::NoCells => Why::Cells,
    };
    match find(machine, limits, plan, bench, meter)? {
        Some(verdict) => Ok(verdict),
        None => Ok(Verdict::Undecided(why)),
    }
}

/// The result of the deciders in use, in their order.
fn find<T: Tape>(
    machine: &Machine,
    limits: &Limits,
    plan: Plan,
    bench: &mut Bench<T>,
    meter: &mut Meter,
) -> Result<Option<Verdict>, Memory>
    requires tapes { BenchHasCells T.view limits.now.cells bench.old }
    requires path { depth_of bench.old.path ≡ limits.now.depth }
    requires room { meter.old.steps ≤ limits.now.steps }
    requires nodes { meter.old.nodes ≡ 0 }
    requires most_levels { meter.old.most_levels ≡ 0 }
    ensures found { IfOk result (DecidersFind machine.now limits.now plan) }
    ensures counted { OnOk result (DecidersCount machine.now limits.now plan meter.old meter.new) }
    ensures within { IsWithinDeciders limits.now meter.old meter.new }
    ensures promised { IsPromised (λ found. found) machine.now T.GROWS result }
    ensures tapes { BenchHasCells T.view limits.now.cells bench.new }
    ensures path { depth_of bench.new.path ≡ depth_of bench.old.path }
{
    match search_in_turn(machine, limits, plan, bench, meter)? {
        Some(verdict) => return Ok(Some(verdict)),
        None => {}
    }
    if !plan.backward {
        return Ok(None);
    }
    backward(machine, limits, bench, meter)
}

/// The result of the searches in use, for cycles first.
fn search_in_turn<T: Tape>(
    machine: &Machine,
    limits: &Limits,
    plan: Plan,
    bench: &mut Bench<T>,
    meter: &mut Meter,
) -> Result<Option<Verdict>, Memory>
    requires tapes { BenchHasCells T.view limits.now.cells bench.old }
    requires room { meter.old.steps ≤ limits.now.steps }
    ensures found { IfOk result (SearchesFind machine.now limits.now plan) }
    ensures counted { OnOk result (SearchesCount machine.now limits.now plan meter.old meter.new) }
    ensures within { IsWithinRuns 2 limits.now meter.old meter.new }
    ensures promised { IsPromised (λ found. found) machine.now T.GROWS result }
    ensures tapes { BenchHasCells T.view limits.now.cells bench.new }
    ensures path { bench.new.path ≡ bench.old.path }
{
    if plan.cyclers {
        match cyclers(machine, limits, bench, meter)? {
            Some(verdict) => return Ok(Some(verdict)),
            None => {}
        }
    }
    if !plan.translated {
        return Ok(None);
    }
    translated(machine, limits, bench, meter)
}
