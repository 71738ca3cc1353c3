//! The verdict on one machine by one run for all of halts, cycles and records.
ghost use Rattle.std.specs.Prelude.{◌≡◌, ◌*◌, IfOk, IsTrue, OnErr, OnOk};
ghost use Rattle.bb_sim.specs.Run.{Never};
ghost use Rattle.bb_cert.specs.declared.checker.answer.Answer.{Answer};
ghost use Rattle.bb_cert.specs.declared.verdict.reader.Line.{Line};
ghost use Rattle.bb_cert.specs.checker.Answer.{IsAnswer, IsUndecided};
ghost use Rattle.bb_cert.specs.claims.Claim.{Claim, SaysNever};
ghost use Rattle.bb_cert.specs.verdict.Line.{IsLineOf, line_text};
ghost use Rattle.bb_tree.specs.Path.{depth_of};
ghost use Rattle.bb_cert.specs.verdict.Verdict.{HasNumbers};
ghost use Rattle.bb_decide.specs.Bench.{BenchHasCells};
ghost use Rattle.bb_decide.specs.FewCells.{DecidesFewCells};
ghost use Rattle.bb_decide.specs.Fingerprint.{CostsWhatItNames};
ghost use Rattle.bb_decide.specs.SinglePassCost.{BreaksOff, CountsRefused, CountsRuns};
ghost use Rattle.bb_decide.specs.inside.SearchResult.{AddsRuns, EndsSearches, PlanCosts};
ghost use Rattle.bb_decide.specs.inside.SearchResult.{found_of};
ghost use Rattle.bb_decide.specs.inside.Search.{IsPromised, IsWithinRuns};
ghost use Rattle.bb_decide.specs.Sure.{KeepsEarlier};
ghost use Rattle.bb_decide.specs.Verdict.{IsVerdict};
ghost use Rattle.bb_decide.specs.Cost.{CountsWalk, IsWithinCost, MakesWalk};

use crate::bench::Bench;
use crate::cycle::seek_cycle;
use crate::decision::show_verdict;
use crate::keys::FingerprintKeys;
use crate::reasoning::backward;
use crate::search_result::SearchResult;
use crate::single_pass::run_single_pass;
use crate::translation::seek_translation;
use bb_cert::{Verdict, Why};
use bb_machine::{Limits, Machine, Plan};
use bb_registers::simulate_in_registers;
use bb_sim::{Meter, Outcome};
use bb_tape::{Memory, Tape};

/// Resets `meter`, decides a machine as [`decide`](crate::decide) does, and records the cost in `meter`. The
/// first event of the run is the verdict, since a halt, a cycle and agreeing records exclude one another. So
/// a halt costs the steps of its verdict, a pair at most twice its second step, an undecided machine one run
/// and the tree. It costs more only if the fingerprints of two different configurations collide.
///
/// After an error the meter has counted steps of the runs made as `cut` says; by tests, all of them. The next
/// call resets all tapes.
#[inline(always)]
pub fn decide_in_single_pass<T: Tape, K: FingerprintKeys>(
    machine: &Machine,
    limits: &Limits,
    plan: Plan,
    keys: &K,
    bench: &mut Bench<T>,
    meter: &mut Meter,
) -> Result<Verdict, Memory>
    requires tapes { BenchHasCells T.view limits.now.cells bench.old }
    requires path { depth_of bench.old.path ≡ limits.now.depth }
    ensures verdict { IfOk result (IsVerdict machine.now limits.now plan) }
    ensures earlier { IfOk result (KeepsEarlier machine.now limits.now plan) }
    ensures few_cells { IfOk result (DecidesFewCells machine.now limits.now plan) }
    ensures numbers { IfOk result HasNumbers }
    ensures claim { IfOk result (Claim machine.now) }
    ensures never { IfOk result (λ verdict. SaysNever verdict → Never machine.now) }
    ensures confirmed { IfOk result (λ verdict. (IsUndecided verdict → ⊥)
        → IsAnswer machine.now limits.now verdict Answer.Ok) }
    ensures line { IfOk result (λ verdict.
        IsLineOf (Line.Claim machine.now verdict) (line_text machine.now verdict)) }
    ensures bound { IfOk result
        (CostsWhatItNames (K.key_of keys.now) machine.now limits.now plan meter.new.steps) }
    ensures counted { OnOk result
        (CountsRuns (K.key_of keys.now) machine.now limits.now plan meter.new) }
    ensures cut { OnErr result (CountsRefused (K.key_of keys.now) machine.now limits.now plan
        (T.view bench.new.run).content meter.new) }
    ensures walk { OnOk result
        (CountsWalk (MakesWalk machine.now limits.now plan) machine.now limits.now meter.new) }
    ensures within { IsWithinCost limits.now meter.new }
    ensures tapes { BenchHasCells T.view limits.now.cells bench.new }
    ensures path { depth_of bench.new.path ≡ depth_of bench.old.path }
    ensures memory { OnErr result (IsTrue T.GROWS) }
{
    let verdict = verdict_in_single_pass(machine, limits, plan, keys, bench, meter)?;
    show_verdict(machine, limits, plan, &verdict);
    Ok(verdict)
}

/// The verdict and its cost.
#[inline(always)]
fn verdict_in_single_pass<T: Tape, K: FingerprintKeys>(
    machine: &Machine,
    limits: &Limits,
    plan: Plan,
    keys: &K,
    bench: &mut Bench<T>,
    meter: &mut Meter,
) -> Result<Verdict, Memory>
    requires tapes { BenchHasCells T.view limits.now.cells bench.old }
    requires path { depth_of bench.old.path ≡ limits.now.depth }
    ensures verdict { IfOk result (IsVerdict machine.now limits.now plan) }
    ensures numbers { IfOk result HasNumbers }
    ensures bound { IfOk result
        (CostsWhatItNames (K.key_of keys.now) machine.now limits.now plan meter.new.steps) }
    ensures counted { OnOk result
        (CountsRuns (K.key_of keys.now) machine.now limits.now plan meter.new) }
    ensures cut { OnErr result (CountsRefused (K.key_of keys.now) machine.now limits.now plan
        (T.view bench.new.run).content meter.new) }
    ensures walk { OnOk result
        (CountsWalk (MakesWalk machine.now limits.now plan) machine.now limits.now meter.new) }
    ensures within { IsWithinCost limits.now meter.new }
    ensures tapes { BenchHasCells T.view limits.now.cells bench.new }
    ensures path { depth_of bench.new.path ≡ depth_of bench.old.path }
    ensures memory { OnErr result (IsTrue T.GROWS) }
{
    *meter = Meter::new();
    limits.show_accepted();
    let outcome = match search_by_plan(machine, limits, plan, keys, bench, meter)? {
        SearchResult::Found(verdict) => return Ok(verdict),
        SearchResult::Ran(outcome) => outcome,
    };
    let why = match outcome {
        Outcome::Halt { steps, score } => return Ok(Verdict::Halt { steps, score }),
        Outcome::NoSteps => Why::Steps,
        Outcome::NoCells => Why::Cells,
    };
    if !plan.backward {
        return Ok(Verdict::Undecided(why));
    }
    match backward(machine, limits, bench, meter)? {
        Some(verdict) => Ok(verdict),
        None => Ok(Verdict::Undecided(why)),
    }
}

/// The result of the searches in use, or else the outcome of their run. Both are made in a single pass; after a
/// repeated fingerprint the exact search for cycles follows, and if that finds nothing, the search for records.
fn search_by_plan<T: Tape, K: FingerprintKeys>(
    machine: &Machine,
    limits: &Limits,
    plan: Plan,
    keys: &K,
    bench: &mut Bench<T>,
    meter: &mut Meter,
) -> Result<SearchResult, Memory>
    requires tapes { BenchHasCells T.view limits.now.cells bench.old }
    requires steps { meter.old.steps ≡ 0 }
    ensures ended { IfOk result (EndsSearches machine.now limits.now plan) }
    ensures adds { OnOk result (AddsRuns (K.key_of keys.now) machine.now limits.now plan.cyclers
        plan.translated meter.old meter.new) }
    ensures cut { OnErr result (BreaksOff (K.key_of keys.now) machine.now limits.now plan.cyclers
        plan.translated (T.view bench.new.run).content meter.old meter.new) }
    ensures costs { IfOk result
        (PlanCosts (K.key_of keys.now) machine.now limits.now plan meter.new.steps) }
    ensures within { IsWithinRuns 3 limits.now meter.old meter.new }
    ensures promised { IsPromised found_of machine.now T.GROWS result }
    ensures tapes { BenchHasCells T.view limits.now.cells bench.new }
    ensures path { bench.new.path ≡ bench.old.path }
{
    limits.show_accepted();
    if !plan.translated {
        if !plan.cyclers {
            let outcome = simulate_in_registers(machine, &mut bench.run, limits, meter)?;
            return Ok(SearchResult::Ran(outcome));
        }
        return seek_cycle(machine, limits, bench, meter);
    }
    if !plan.cyclers {
        return seek_translation(machine, limits, bench, meter);
    }
    match run_single_pass(machine, limits, keys, bench, meter)? {
        Some(search_result) => return Ok(search_result),
        None => {}
    }
    let search_result = seek_cycle(machine, limits, bench, meter)?;
    if search_result.is_settled() {
        return Ok(search_result);
    }
    seek_translation(machine, limits, bench, meter)
}
