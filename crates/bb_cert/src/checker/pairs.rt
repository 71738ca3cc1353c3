//! The two kinds of pairs.
ghost use Rattle.std.specs.Prelude.{◌≡◌, ◌<◌, ◌↔◌, IfOk, IfSome, IsTrue, OnErr};
ghost use Rattle.bb_sim.specs.Meter.{CountsRun, zero_meter};
ghost use Rattle.bb_cert.specs.declared.checker.answer.Answer.{Answer};
ghost use Rattle.bb_cert.specs.declared.verdict.Verdict.{Verdict};
ghost use Rattle.bb_cert.specs.checker.ClaimMeter.{CountsClaim, IsWithinClaim};
ghost use Rattle.bb_cert.specs.checker.Pair.{PairHasCells};
ghost use Rattle.bb_cert.specs.inside.Checks.{Checks};
ghost use Rattle.bb_cert.specs.inside.RegisterChecks.{claim_of};
ghost use Rattle.bb_cert.specs.inside.Runs.{IsKeptOnAll, MatchExtent, StandsSaved, StandsThere, made_of};
ghost use Rattle.bb_cert.specs.inside.Runs.{saved_steps};

use crate::checker::answer::Answer;
use crate::checker::checking::Pair;
use crate::checker::course::Course;
use crate::checker::replay::{ReplayState, run_to};
use crate::checker::run::Run;
use crate::records::Records;
use crate::verdict::{Extent, Side, Verdict};
use bb_machine::{Limits, Machine};
use bb_registers::BitCells;
use bb_sim::Meter;
use bb_tape::{Memory, Tape};

/// A claim of two agreeing records, the second of which is made at the limit of steps.
#[derive(Clone, Copy)]
pub(crate) struct RecordPair {
    pub(crate) side: Side,
    pub(crate) first: u64,
    pub(crate) extent: Option<Extent>,
}

/// Whether the configuration of one step comes again at the limit of steps: by one run, and a copy of its
/// tape.
pub(crate) fn check_cycler<A: Course, T: Tape>(
    machine: &Machine,
    first: u64,
    limits: &Limits,
    pair: &mut Pair<T>,
    along: &mut A,
    meter: &mut Meter,
) -> Result<Answer, Memory>
    requires order { first < limits.now.steps }
    requires tapes { PairHasCells T.view limits.now.cells pair.old }
    requires meter { meter.old ≡ zero_meter }
    ensures checks { IfOk result (Checks machine.now limits.now (Verdict.Cycler first limits.now.steps)) }
    ensures counted { IfOk result (λ answer. answer ≡ Answer.Ok
        → CountsClaim (Verdict.Cycler first limits.now.steps) meter.new) }
    ensures within { IsWithinClaim limits.now (Verdict.Cycler first limits.now.steps) meter.new }
    ensures replayed { IfOk result (λ answer. CountsRun machine.now limits.now zero_meter meter.new) }
    ensures along { IfOk result (λ answer. answer ≡ Answer.Ok
        → A.goes_on machine.now 0 limits.now.steps along.old along.new) }
    ensures tapes { PairHasCells T.view limits.now.cells pair.new }
    ensures memory { OnErr result (IsTrue T.GROWS) }
{
    let run = &mut Run::begin(machine, limits, &mut pair.run, meter);
    match run_to(machine, run, pair, limits, first, &mut (), along, meter)? {
        Some(answer) => return Ok(answer),
        None => {}
    }
    run.save(pair)?;
    let second = limits.steps();
    match run_to(machine, run, pair, limits, second, &mut (), along, meter)? {
        Some(answer) => return Ok(answer),
        None => {}
    }
    run.count(machine, &pair.run, limits, meter);
    if run.is_as_saved(pair) {
        return Ok(Answer::Ok);
    }
    Ok(Answer::Bad)
}

/// Whether two steps make agreeing records, with the claimed extent, the second at the limit of steps.
pub(crate) fn check_translated<A: Course, T: Tape>(
    machine: &Machine,
    claim: RecordPair,
    limits: &Limits,
    pair: &mut Pair<T>,
    along: &mut A,
    meter: &mut Meter,
) -> Result<Answer, Memory>
    requires order { claim.first < limits.now.steps }
    requires tapes { PairHasCells T.view limits.now.cells pair.old }
    requires meter { meter.old ≡ zero_meter }
    ensures checks { IfOk result (Checks machine.now limits.now (claim_of limits.now claim)) }
    ensures counted { IfOk result (λ answer. answer ≡ Answer.Ok
        → CountsClaim (claim_of limits.now claim) meter.new) }
    ensures within { IsWithinClaim limits.now (claim_of limits.now claim) meter.new }
    ensures replayed { IfOk result (λ answer. CountsRun machine.now limits.now zero_meter meter.new) }
    ensures along { IfOk result (λ answer. answer ≡ Answer.Ok
        → A.goes_on machine.now 0 limits.now.steps along.old along.new) }
    ensures tapes { PairHasCells T.view limits.now.cells pair.new }
    ensures memory { OnErr result (IsTrue T.GROWS) }
{
    let run = &mut Run::begin(machine, limits, &mut pair.run, meter);
    let at_start = run.runner(machine, limits);
    let mut state = ReplayState {
        records: Records::new(claim.side, at_start),
        is_record: false,
    };
    let first = claim.first;
    match run_to(machine, run, pair, limits, first, &mut state, along, meter)? {
        Some(answer) => return Ok(answer),
        None => {}
    }
    run.save(pair)?;
    let at_first = run.runner(machine, limits);
    state.keep_if_record(&at_first);
    let second = limits.steps();
    match run_to(machine, run, pair, limits, second, &mut state, along, meter)? {
        Some(answer) => return Ok(answer),
        None => {}
    }
    run.count(machine, &pair.run, limits, meter);
    let Some(found) = agreeing_extent(&state, run, machine, limits, pair) else {
        return Ok(Answer::Bad);
    };
    if !matches_claimed(claim.extent, found) {
        return Ok(Answer::Bad);
    }
    Ok(Answer::Ok)
}

/// The extent of the records that the run makes now and made when it was saved, if both steps make one of the
/// side and they agree.
fn agreeing_extent<T: Tape>(
    replay: &ReplayState,
    run: &Run,
    machine: &Machine,
    limits: &Limits,
    pair: &mut Pair<T>,
) -> Option<Extent>
    requires run { StandsThere machine.now limits.now run.now (T.view pair.old.run) }
    requires saved { StandsSaved machine.now limits.now run.now (T.view pair.old.saved) }
    requires tapes { PairHasCells T.view limits.now.cells pair.old }
    requires order { saved_steps run.now < made_of run.now }
    requires kept { IsKeptOnAll machine.now replay.now.records.side (saved_steps run.now) (made_of run.now)
        replay.now }
    ensures agree { MatchExtent machine.now replay.now.records.side (saved_steps run.now) (made_of run.now)
        result }
    ensures tapes { PairHasCells T.view limits.now.cells pair.new }
{
    if !replay.is_record {
        return None;
    }
    match run {
        Run::InRegisters { active, saved } => {
            let runner = active.run.runner(machine, limits);
            let cells = BitCells::of_bits(active.run.registers.bits);
            let saved_cells = BitCells::of_bits(saved.registers.bits);
            if !replay
                .records
                .agrees_in_registers(&runner, &cells, &saved_cells)
            {
                return None;
            }
            Some(replay.records.extent(&runner))
        }
        Run::OnTape { runner, .. } => {
            if !replay.records.agrees(runner, &pair.run, &mut pair.saved) {
                return None;
            }
            Some(replay.records.extent(runner))
        }
    }
}

/// Whether the claimed extent, if any, is this one.
fn matches_claimed(claimed: Option<Extent>, found: Extent) -> bool
    ensures { IsTrue result ↔ IfSome claimed (λ extent. extent ≡ found) }
{
    match claimed {
        Some(extent) => extent == found,
        None => true,
    }
}
