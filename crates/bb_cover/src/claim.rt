//! Whether a list may have a verdict on a machine, and the undefined transition of a halt.
ghost use Rattle.std.specs.Prelude.{◌≡◌, ◌≤◌, IfOk, IsTrue, OnErr};
ghost use Rattle.bb_cert.specs.checker.Pair.{PairHasCells};
ghost use Rattle.bb_cert.specs.checker.Answer.{IsAnswer};
ghost use Rattle.bb_tree.specs.Path.{depth_of};
ghost use Rattle.bb_cover.specs.Claims.{IsHalt, IsJudged, IsJudgedContent, IsOneOf};

use crate::content::Content;
use crate::halt::{Halted, halt_at};
use crate::undefined::{UndefinedEntry, has_other_undefined};
use bb_cert::{Answer, Pair, Path, Verdict, check};
use bb_machine::{Limits, Machine};
use bb_sim::Meter;
use bb_tape::{Memory, Tape};

/// The judgement on a verdict.
#[derive(Clone, Copy, Debug)]
pub(crate) enum Judged {
    /// The checker's answer to it is `ok` or `open`; its machine halts on this one of several `---`, if on
    /// any.
    Fine(Option<UndefinedEntry>),
    /// The checker's answer is this one, `bad` or `over`.
    Refused(Answer),
}

/// Judges the content of a line. The counts of a shard are taken as they are.
pub(crate) fn judge_content<T: Tape>(
    machine: &Machine,
    content: &Content,
    limits: &Limits,
    pair: &mut Pair<T>,
    path: &mut Path,
) -> Result<Judged, Memory>
    requires tapes { PairHasCells T.view limits.now.cells pair.old }
    requires path { limits.now.depth ≤ depth_of path.old }
    ensures judged { IfOk result (IsJudgedContent machine.now limits.now content.now) }
    ensures tapes { PairHasCells T.view limits.now.cells pair.new }
    ensures path { depth_of path.new ≡ depth_of path.old }
    ensures memory { OnErr result (IsTrue T.GROWS) }
{
    match content {
        Content::Claim(verdict) => judge(machine, verdict, limits, pair, path),
        Content::Shard(_) => Ok(Judged::Fine(None)),
    }
}

/// Judges a verdict. To confirm a halt takes one run; any other claim goes to the checker.
fn judge<T: Tape>(
    machine: &Machine,
    verdict: &Verdict,
    limits: &Limits,
    pair: &mut Pair<T>,
    path: &mut Path,
) -> Result<Judged, Memory>
    requires tapes { PairHasCells T.view limits.now.cells pair.old }
    requires path { limits.now.depth ≤ depth_of path.old }
    ensures judged { IfOk result (IsJudged machine.now limits.now verdict.now) }
    ensures tapes { PairHasCells T.view limits.now.cells pair.new }
    ensures path { depth_of path.new ≡ depth_of path.old }
    ensures memory { OnErr result (IsTrue T.GROWS) }
{
    match *verdict {
        Verdict::Halt { steps, score } => judge_halt(machine, steps, score, limits, pair, path),
        _ => judge_answer(machine, verdict, limits, pair, path),
    }
}

/// Judges a halt.
fn judge_halt<T: Tape>(
    machine: &Machine,
    steps: u64,
    score: u64,
    limits: &Limits,
    pair: &mut Pair<T>,
    path: &mut Path,
) -> Result<Judged, Memory>
    requires tapes { PairHasCells T.view limits.now.cells pair.old }
    requires path { limits.now.depth ≤ depth_of path.old }
    ensures judged { IfOk result (IsJudged machine.now limits.now (Verdict.Halt steps score)) }
    ensures tapes { PairHasCells T.view limits.now.cells pair.new }
    ensures path { depth_of path.new ≡ depth_of path.old }
    ensures memory { OnErr result (IsTrue T.GROWS) }
{
    if steps > limits.steps() {
        return Ok(Judged::Refused(Answer::Over));
    }
    let Some(halted) = halt_at(machine, steps, limits, &mut pair.run)? else {
        return refuse_halt(machine, steps, score, limits, pair, path);
    };
    if halted.score != score {
        return refuse_halt(machine, steps, score, limits, pair, path);
    }
    Ok(Judged::Fine(undefined_to_fill(machine, halted)))
}

/// The undefined transition of a halt, if it is one of several.
fn undefined_to_fill(machine: &Machine, halted: Halted) -> Option<UndefinedEntry>
    ensures { IsOneOf machine.now halted.undefined result }
{
    let undefined = halted.undefined?;
    if has_other_undefined(machine, undefined) {
        return Some(undefined);
    }
    None
}

/// Judges a false claim of a halt.
fn refuse_halt<T: Tape>(
    machine: &Machine,
    steps: u64,
    score: u64,
    limits: &Limits,
    pair: &mut Pair<T>,
    path: &mut Path,
) -> Result<Judged, Memory>
    requires not_so { IsAnswer machine.now limits.now (Verdict.Halt steps score) Answer.Ok → ⊥ }
    requires tapes { PairHasCells T.view limits.now.cells pair.old }
    requires path { limits.now.depth ≤ depth_of path.old }
    ensures judged { IfOk result (IsJudged machine.now limits.now (Verdict.Halt steps score)) }
    ensures tapes { PairHasCells T.view limits.now.cells pair.new }
    ensures path { depth_of path.new ≡ depth_of path.old }
    ensures memory { OnErr result (IsTrue T.GROWS) }
{
    let verdict = Verdict::Halt { steps, score };
    let mut meter = Meter::new();
    let answer = check(machine, &verdict, limits, pair, path, &mut meter)?;
    Ok(Judged::Refused(answer))
}

/// Judges any other verdict by the checker's answer.
fn judge_answer<T: Tape>(
    machine: &Machine,
    verdict: &Verdict,
    limits: &Limits,
    pair: &mut Pair<T>,
    path: &mut Path,
) -> Result<Judged, Memory>
    requires no_halt { IsHalt verdict.now → ⊥ }
    requires tapes { PairHasCells T.view limits.now.cells pair.old }
    requires path { limits.now.depth ≤ depth_of path.old }
    ensures judged { IfOk result (IsJudged machine.now limits.now verdict.now) }
    ensures tapes { PairHasCells T.view limits.now.cells pair.new }
    ensures path { depth_of path.new ≡ depth_of path.old }
    ensures memory { OnErr result (IsTrue T.GROWS) }
{
    let mut meter = Meter::new();
    let answer = check(machine, verdict, limits, pair, path, &mut meter)?;
    if answer.is_fine() {
        return Ok(Judged::Fine(None));
    }
    Ok(Judged::Refused(answer))
}
