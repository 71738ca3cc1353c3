//! The checker: whether a verdict's claim holds, from any source.
ghost use Rattle.std.specs.Prelude.{◌≡◌, ℕ, ◌<◌, ◌≤◌, IfOk, IsTrue, OnErr};
ghost use Rattle.bb_sim.specs.Meter.{CountsRun, zero_meter};
ghost use Rattle.bb_sim.specs.Run.{Never};
ghost use Rattle.bb_cert.specs.declared.checker.answer.Answer.{Answer};
ghost use Rattle.bb_cert.specs.declared.verdict.Verdict.{Verdict};
ghost use Rattle.bb_cert.specs.checker.Answer.{IsAnswer, IsSettled};
ghost use Rattle.bb_cert.specs.inside.Checks.{Checks, Settles};
ghost use Rattle.bb_cert.specs.claims.Claim.{Claim, SaysNever};
ghost use Rattle.bb_cert.specs.checker.ClaimMeter.{CountsCheck, CountsClaim, CountsWindow};
ghost use Rattle.bb_cert.specs.checker.ClaimMeter.{IsOfPair, IsWithinClaim, last_step};
ghost use Rattle.bb_cert.specs.checker.Pair.{PairHasCells};
ghost use Rattle.bb_tree.specs.Path.{depth_of};
ghost use Rattle.bb_tree.specs.Tree.{EndsWithin};

use crate::checker::answer::Answer;
use crate::checker::course::Course;
use crate::checker::pairs::{RecordPair, check_cycler, check_translated};
use crate::verdict::Verdict;
use bb_machine::{Limits, Machine};
use bb_registers::simulate_in_registers;
use bb_sim::{Meter, Outcome};
use bb_tape::{Memory, RingTape, Tape};
use bb_tree::{Path, walk};
use std::alloc::Global;

/// The tapes for checking a claim. Each call resets those it uses.
#[derive(Drop)]
pub struct Pair<T> {
    /// The tape of the run, and of the walk.
    pub run: T,
    /// The tape saved at the first step of a pair.
    pub saved: T,
}

/// Two rings and a path for claims under these limits.
pub fn ring_pair(alloc: Global, limits: &Limits) -> Result<(Pair<RingTape>, Path), Memory>
    ensures tapes { IfOk result (λ made. PairHasCells ⟦<RingTape as Tape>⟧.view limits.now.cells made.0) }
    ensures path { IfOk result (λ made. depth_of made.1 ≡ limits.now.depth) }
{
    let cells = limits.cells();
    let run = RingTape::new(alloc, cells)?;
    let saved = RingTape::new(alloc, cells)?;
    let path = Path::new(alloc, limits.depth())?;
    Ok((Pair { run, saved }, path))
}

/// Resets `meter`, checks a verdict's claim on a machine, and records the cost in `meter`. It makes no step
/// and enters no node beyond those the verdict names.
///
/// After an error the contents of the tapes are unspecified; the next call resets them.
pub fn check<T: Tape>(
    machine: &Machine,
    verdict: &Verdict,
    limits: &Limits,
    pair: &mut Pair<T>,
    path: &mut Path,
    meter: &mut Meter,
) -> Result<Answer, Memory>
    requires tapes { PairHasCells T.view limits.now.cells pair.old }
    requires path { limits.now.depth ≤ depth_of path.old }
    ensures answer { IfOk result (IsAnswer machine.now limits.now verdict.now) }
    ensures claim { IfOk result (λ answer. answer ≡ Answer.Ok → Claim machine.now verdict.now) }
    ensures never { IfOk result (λ answer. answer ≡ Answer.Ok → SaysNever verdict.now → Never machine.now) }
    ensures counted { IfOk result (λ answer. answer ≡ Answer.Ok
        → CountsClaim verdict.now meter.new) }
    ensures within { IsWithinClaim limits.now verdict.now meter.new }
    ensures cost { IfOk result (λ answer. CountsCheck machine.now limits.now verdict.now meter.new) }
    ensures window { IfOk result (λ answer.
        CountsWindow machine.now limits.now verdict.now meter.new.most_cells) }
    ensures settled { IsSettled limits.now verdict.now → meter.new ≡ zero_meter }
    ensures tapes { PairHasCells T.view limits.now.cells pair.new }
    ensures depth { depth_of path.new ≡ depth_of path.old }
    ensures memory { OnErr result (IsTrue T.GROWS) }
{
    check_along(machine, verdict, limits, pair, path, &mut (), meter)
}

/// [`check`], with something followed along the run of a pair: for a pair that holds, up to its second step.
/// After another answer, or after an error, it may have been followed to some step of the run.
///
/// After an error the contents of the tapes are unspecified; the next call resets them.
pub fn check_along<A: Course, T: Tape>(
    machine: &Machine,
    verdict: &Verdict,
    limits: &Limits,
    pair: &mut Pair<T>,
    path: &mut Path,
    along: &mut A,
    meter: &mut Meter,
) -> Result<Answer, Memory>
    requires tapes { PairHasCells T.view limits.now.cells pair.old }
    requires path { limits.now.depth ≤ depth_of path.old }
    ensures answer { IfOk result (IsAnswer machine.now limits.now verdict.now) }
    ensures claim { IfOk result (λ answer. answer ≡ Answer.Ok → Claim machine.now verdict.now) }
    ensures never { IfOk result (λ answer. answer ≡ Answer.Ok → SaysNever verdict.now → Never machine.now) }
    ensures counted { IfOk result (λ answer. answer ≡ Answer.Ok
        → CountsClaim verdict.now meter.new) }
    ensures within { IsWithinClaim limits.now verdict.now meter.new }
    ensures cost { IfOk result (λ answer. CountsCheck machine.now limits.now verdict.now meter.new) }
    ensures window { IfOk result (λ answer.
        CountsWindow machine.now limits.now verdict.now meter.new.most_cells) }
    ensures along { IfOk result (λ answer. answer ≡ Answer.Ok → IsOfPair verdict.now
        → A.goes_on machine.now 0 (last_step verdict.now) along.old along.new) }
    ensures settled { IsSettled limits.now verdict.now → meter.new ≡ zero_meter }
    ensures tapes { PairHasCells T.view limits.now.cells pair.new }
    ensures depth { depth_of path.new ≡ depth_of path.old }
    ensures memory { OnErr result (IsTrue T.GROWS) }
{
    *meter = Meter::new();
    machine.show_machine();
    match settle(verdict, limits) {
        Some(answer) => Ok(answer),
        None => check_claim(machine, *verdict, limits, pair, path, along, meter),
    }
}

/// The answer, if it needs no run.
fn settle(verdict: &Verdict, limits: &Limits) -> Option<Answer>
    ensures { Settles limits.now verdict.now result }
{
    match *verdict {
        Verdict::Halt { steps, .. } => {
            if steps > limits.steps() {
                return Some(Answer::Over);
            }
            None
        }
        Verdict::Cycler { first, second } => settle_pair(first, second, limits),
        Verdict::Translated { first, second, .. } => settle_pair(first, second, limits),
        Verdict::Backward { levels, nodes } => {
            if levels > limits.depth() {
                return Some(Answer::Over);
            }
            if nodes > limits.nodes() {
                return Some(Answer::Over);
            }
            None
        }
        Verdict::Undecided(_) => Some(Answer::Open),
    }
}

/// The answer to a pair of steps, if it needs no run.
fn settle_pair(first: u64, second: u64, limits: &Limits) -> Option<Answer>
    ensures { Settles limits.now (Verdict.Cycler first second) result }
{
    if first > limits.steps() {
        return Some(Answer::Over);
    }
    if second > limits.steps() {
        return Some(Answer::Over);
    }
    if first >= second {
        return Some(Answer::Bad);
    }
    None
}

/// The answer to a claim by a run or a walk.
fn check_claim<A: Course, T: Tape>(
    machine: &Machine,
    verdict: Verdict,
    limits: &Limits,
    pair: &mut Pair<T>,
    path: &mut Path,
    along: &mut A,
    meter: &mut Meter,
) -> Result<Answer, Memory>
    requires open { IsSettled limits.now verdict → ⊥ }
    requires tapes { PairHasCells T.view limits.now.cells pair.old }
    requires path { limits.now.depth ≤ depth_of path.old }
    requires meter { meter.old ≡ zero_meter }
    ensures checks { IfOk result (Checks machine.now limits.now verdict) }
    ensures counted { IfOk result (λ answer. answer ≡ Answer.Ok
        → CountsClaim verdict meter.new) }
    ensures within { IsWithinClaim limits.now verdict meter.new }
    ensures cost { IfOk result (λ answer. CountsCheck machine.now limits.now verdict meter.new) }
    ensures window { IfOk result (λ answer.
        CountsWindow machine.now limits.now verdict meter.new.most_cells) }
    ensures along { IfOk result (λ answer. answer ≡ Answer.Ok → IsOfPair verdict
        → A.goes_on machine.now 0 (last_step verdict) along.old along.new) }
    ensures tapes { PairHasCells T.view limits.now.cells pair.new }
    ensures depth { depth_of path.new ≡ depth_of path.old }
    ensures memory { OnErr result (IsTrue T.GROWS) }
{
    match verdict {
        Verdict::Halt { steps, score } => {
            check_halt(machine, steps, score, limits, &mut pair.run, meter)
        }
        Verdict::Cycler { first, second } => {
            let limits = limits.with_steps(second);
            check_cycler(machine, first, &limits, pair, along, meter)
        }
        Verdict::Translated {
            side,
            first,
            second,
            extent,
        } => {
            let claim = RecordPair {
                side,
                first,
                extent,
            };
            let limits = limits.with_steps(second);
            check_translated(machine, claim, &limits, pair, along, meter)
        }
        Verdict::Backward { levels, nodes } => {
            check_backward(machine, levels, nodes, limits, &mut pair.run, path, meter)
        }
        Verdict::Undecided(_) => Ok(Answer::Open),
    }
}

/// Whether the machine halts after so many steps with such a score: one simulation with no more steps.
fn check_halt<T: Tape>(
    machine: &Machine,
    steps: u64,
    score: u64,
    limits: &Limits,
    tape: &mut T,
    meter: &mut Meter,
) -> Result<Answer, Memory>
    requires steps { steps ≤ limits.now.steps }
    requires limit { (T.view tape.old).limit ≡ limits.now.cells }
    requires meter { meter.old ≡ zero_meter }
    ensures checks { IfOk result (Checks machine.now limits.now (Verdict.Halt steps score)) }
    ensures counted { IfOk result (λ answer. answer ≡ Answer.Ok
        → CountsClaim (Verdict.Halt steps score) meter.new) }
    ensures within { IsWithinClaim limits.now (Verdict.Halt steps score) meter.new }
    ensures replayed { IfOk result (λ answer.
        CountsRun machine.now (record limits.now { steps = steps }) zero_meter meter.new) }
    ensures limit { (T.view tape.new).limit ≡ (T.view tape.old).limit }
    ensures memory { OnErr result (IsTrue T.GROWS) }
{
    let limits = limits.with_steps(steps);
    match simulate_in_registers(machine, tape, &limits, meter)? {
        Outcome::Halt {
            steps: made,
            score: found,
        } => {
            if made != steps {
                return Ok(Answer::Bad);
            }
            if found != score {
                return Ok(Answer::Bad);
            }
            Ok(Answer::Ok)
        }
        Outcome::NoSteps => Ok(Answer::Bad),
        Outcome::NoCells => Ok(Answer::Over),
    }
}

/// Whether the backward tree ends in so many levels with so many nodes, none of them matched by the start: by
/// one walk with no more levels and nodes.
fn check_backward<T: Tape>(
    machine: &Machine,
    levels: u64,
    nodes: u64,
    limits: &Limits,
    tape: &mut T,
    path: &mut Path,
    meter: &mut Meter,
) -> Result<Answer, Memory>
    requires levels { levels ≤ limits.now.depth }
    requires nodes { nodes ≤ limits.now.nodes }
    requires limit { (T.view tape.old).limit ≡ limits.now.cells }
    requires path { limits.now.depth ≤ depth_of path.old }
    requires meter { meter.old ≡ zero_meter }
    ensures checks { IfOk result (Checks machine.now limits.now (Verdict.Backward levels nodes)) }
    ensures counted { IfOk result (λ answer. answer ≡ Answer.Ok
        → CountsClaim (Verdict.Backward levels nodes) meter.new) }
    ensures within { IsWithinClaim limits.now (Verdict.Backward levels nodes) meter.new }
    ensures ended { IfOk result (λ answer. (h k : ℕ) → EndsWithin machine.now levels nodes h k
        → (meter.new.most_levels ≡ h) × (meter.new.nodes ≡ k)) }
    ensures no_window { meter.new.most_cells ≡ 0 }
    ensures limit { (T.view tape.new).limit ≡ (T.view tape.old).limit }
    ensures depth { depth_of path.new ≡ depth_of path.old }
    ensures memory { OnErr result (IsTrue T.GROWS) }
{
    limits.show_accepted();
    let Some((found_levels, found_nodes)) = walk(machine, levels, nodes, tape, path, meter)? else {
        return Ok(Answer::Bad);
    };
    if found_levels != levels {
        return Ok(Answer::Bad);
    }
    if found_nodes != nodes {
        return Ok(Answer::Bad);
    }
    Ok(Answer::Ok)
}
