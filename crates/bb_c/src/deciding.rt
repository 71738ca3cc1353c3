//! Verdicts on the machines of a list, and on one machine.
ghost use Rattle.std.specs.Prelude.{◌≡◌, ◌≢◌, ◌+◌, ◌*◌, ◌⊎◌, ◌↔◌, ◌≤◌, IfOk, IsTrue, OnOk, [], length};
ghost use Rattle.std.specs.List.{AllByRecursion};
ghost use Rattle.bb_lines.specs.Lines.{AreReplies, lines};
ghost use Rattle.bb_machine.specs.Limits.{IsAccepted};
ghost use Rattle.bb_machine.specs.Machine.{IsMachine, IsMachineLine, text};
ghost use Rattle.bb_cert.specs.verdict.Verdict.{HasNumbers};
ghost use Rattle.bb_decide.specs.Fingerprint.{CostsWhatItNames};
ghost use Rattle.bb_decide.specs.FingerprintKeys.{spread};
ghost use Rattle.bb_decide.specs.Sure.{IsFoundByRun, NoneIsSmaller};
ghost use Rattle.bb_decide.specs.Verdict.{IsVerdict};
ghost use Rattle.bb_decide.specs.Cost.{IsWithinCost};
ghost use Rattle.bb_run.specs.BorneOut.{VerdictsAreBorneOut};
ghost use Rattle.bb_run.specs.Reply.{IsReply};
ghost use Rattle.bb_c.specs.Buffer.{IsFilled, IsTooShort, IsUntouched};
ghost use Rattle.bb_c.specs.Call.{bounds_of, plan_of};
ghost use Rattle.bb_decide.specs.SinglePassCost.{CountsRuns};
ghost use Rattle.bb_c.specs.Cost.{CostsInTwoTries, CountsTries, IsWithinTwoTries, few_bounds};

use crate::buffer::{CLEAN, LIMITS, MEMORY, NOT_CLEAN, SHORT, fill_buffer};
use arrayvec::ArrayVec;
use bb_cert::{LINE_BUFFER, Verdict, line_into, lines_are_short, refusal_into};
use bb_decide::laws::small_limits_decide;
use bb_decide::{Plan, SpreadKeys, decide_in_single_pass};
use bb_lines::watched::Watched;
use bb_machine::{Limits, Machine};
use bb_run::laws::verdicts_are_borne_out;
use bb_run::{VerdictCounts, ring_bench, run_decide_in_single_pass};
use bb_sim::Meter;
use bb_tape::Memory;
use std::alloc::Global;

/// Puts a reply to each line of a list into a buffer, each with a newline. The list's lines end at a newline;
/// a last line without one counts if it isn't empty.
#[unsafe(no_mangle)]
pub extern "C" fn bb_decide(
    alloc: Global,
    steps: u64,
    cells: u64,
    depth: u64,
    nodes: u64,
    cyclers: bool,
    translated: bool,
    backward: bool,
    list: &[u8],
    out: &mut [u8],
    count: &mut usize,
) -> u32
    ensures replies { (result ≡ CLEAN) ⊎ (result ≡ NOT_CLEAN)
        → IsFilled (AreReplies (IsReply (bounds_of steps cells depth nodes)
        (plan_of cyclers translated backward)) (lines list.now)) out.old out.new count.new }
    ensures clean { result ≡ CLEAN → AllByRecursion IsMachineLine (lines list.now) }
    ensures refused { result ≡ NOT_CLEAN → AllByRecursion IsMachineLine (lines list.now) → ⊥ }
    ensures limits { (result ≡ LIMITS) ↔ (IsAccepted (bounds_of steps cells depth nodes) → ⊥) }
    ensures untouched { (result ≡ LIMITS) ⊎ (result ≡ MEMORY) → IsUntouched out.old out.new count.new }
    ensures short { result ≡ SHORT
        → IsTooShort (AreReplies (IsReply (bounds_of steps cells depth nodes)
        (plan_of cyclers translated backward)) (lines list.now)) out.old out.new count.new }

    // A buffer long enough for any list.
    ensures enough { length list.now + 98 * length (lines list.now) ≤ length out.old → result ≢ SHORT }

    // The meaning of each verdict.
    ensures borne_out { VerdictsAreBorneOut (bounds_of steps cells depth nodes)
        (plan_of cyclers translated backward) }

    ensures status { result ≤ SHORT }
{
    *count = 0;
    verdicts_are_borne_out();
    let Ok(limits) = Limits::new(steps, cells, depth, nodes) else {
        return LIMITS;
    };
    let plan = Plan {
        cyclers,
        translated,
        backward,
    };
    match verdicts(alloc, &limits, plan, list) {
        Ok((replies, clean)) => fill_buffer(replies.as_slice(), clean, out, count),
        Err(_) => MEMORY,
    }
}

/// The replies to the lines of a list, and whether each line is a machine's text.
fn verdicts(
    alloc: Global,
    limits: &Limits,
    plan: Plan,
    list: &[u8],
) -> Result<(Vec<u8>, bool), Memory>
    ensures replies { IfOk result
        (λ given. AreReplies (IsReply limits.now plan) (lines list.now) given.0.items) }
    ensures clean { IfOk result
        (λ given. IsTrue given.1 ↔ AllByRecursion IsMachineLine (lines list.now)) }
{
    let mut bench = ring_bench(alloc, limits)?;
    let mut reader = Watched::new(list);
    let mut writer = Watched::new(Vec::new(alloc));
    let counts = VerdictCounts::default();
    match run_decide_in_single_pass(&mut reader, &mut writer, limits, plan, &mut bench, &counts) {
        Ok(summary) => Ok((writer.into_inner(), summary.clean)),
        Err(_) => Err(Memory),
    }
}

/// Puts the reply to one line into a buffer, without a newline. The line is read before any tape is made.
#[unsafe(no_mangle)]
pub extern "C" fn bb_decide_line(
    alloc: Global,
    steps: u64,
    cells: u64,
    depth: u64,
    nodes: u64,
    cyclers: bool,
    translated: bool,
    backward: bool,
    line: &[u8],
    out: &mut [u8],
    count: &mut usize,
) -> u32
    ensures reply { (result ≡ CLEAN) ⊎ (result ≡ NOT_CLEAN)
        → IsFilled (IsReply (bounds_of steps cells depth nodes)
        (plan_of cyclers translated backward) line.now) out.old out.new count.new }
    ensures clean { result ≡ CLEAN → IsMachineLine line.now }
    ensures refused { result ≡ NOT_CLEAN → IsMachineLine line.now → ⊥ }
    ensures limits { (result ≡ LIMITS) ↔ (IsAccepted (bounds_of steps cells depth nodes) → ⊥) }
    ensures memory { result ≡ MEMORY → IsMachineLine line.now }
    ensures untouched { (result ≡ LIMITS) ⊎ (result ≡ MEMORY) → IsUntouched out.old out.new count.new }
    ensures short { result ≡ SHORT
        → IsTooShort (IsReply (bounds_of steps cells depth nodes)
        (plan_of cyclers translated backward) line.now) out.old out.new count.new }

    // A buffer long enough for any line.
    ensures enough { length line.now + 97 ≤ length out.old → result ≢ SHORT }

    // The meaning of each verdict.
    ensures borne_out { VerdictsAreBorneOut (bounds_of steps cells depth nodes)
        (plan_of cyclers translated backward) }

    ensures status { result ≤ SHORT }
{
    *count = 0;
    verdicts_are_borne_out();
    let Ok(limits) = Limits::new(steps, cells, depth, nodes) else {
        return LIMITS;
    };
    let mut reply = ArrayVec::new();
    let machine = match Machine::read(line) {
        Ok(machine) => machine,
        Err(refused) => {
            refusal_into(refused.column, &mut reply);
            return fill_buffer(reply.as_slice(), false, out, count);
        }
    };
    let plan = Plan {
        cyclers,
        translated,
        backward,
    };
    match verdict_line(alloc, &limits, plan, &machine, &mut reply) {
        Ok(()) => fill_buffer(reply.as_slice(), true, out, count),
        Err(_) => MEMORY,
    }
}

/// Writes the line of a machine and its verdict into an empty text.
fn verdict_line(
    alloc: Global,
    limits: &Limits,
    plan: Plan,
    machine: &Machine,
    reply: &mut ArrayVec<u8, LINE_BUFFER>,
) -> Result<(), Memory>
    requires machine { IsMachine machine.now }
    requires empty { reply.old.items ≡ [] }
    ensures reply { OnOk result (IsReply limits.now plan (text machine.now) reply.new.items) }
{
    let mut meter = Meter::new();
    let verdict = verdict_on(alloc, limits, plan, machine, &mut meter)?;
    lines_are_short();
    line_into(machine, &verdict, reply);
    Ok(())
}

/// The most steps of the first try.
const FEW_STEPS: u64 = 4096;

/// The most cells of the first try.
const FEW_CELLS: u64 = 1024;

/// The verdict on a machine: on small tapes first, since most machines need no more, and large ones take
/// longer to make than such a machine takes to be decided. The meter counts the steps of both tries.
fn verdict_on(
    alloc: Global,
    limits: &Limits,
    plan: Plan,
    machine: &Machine,
    meter: &mut Meter,
) -> Result<Verdict, Memory>
    requires machine { IsMachine machine.now }
    ensures verdict { IfOk result (IsVerdict machine.now limits.now plan) }
    ensures numbers { IfOk result HasNumbers }
    ensures bound { IfOk result (CostsInTwoTries machine.now limits.now plan meter.new.steps) }
    ensures counted { OnOk result (CountsTries machine.now limits.now plan meter.new.steps) }
    ensures within { OnOk result (IsWithinTwoTries limits.now meter.new.steps) }
{
    if limits.cells() <= FEW_CELLS {
        return verdict_within(alloc, limits, plan, machine, meter);
    }
    let searches = Plan {
        backward: false,
        ..plan
    };
    let first = verdict_within(alloc, &small_limits(limits), searches, machine, meter)?;
    small_limits_decide();
    if is_found_by_run(&first) {
        return Ok(first);
    }
    let tried = meter.steps;
    let verdict = verdict_within(alloc, limits, plan, machine, meter)?;
    meter.steps += tried;
    Ok(verdict)
}

/// Whether a verdict is a halt or a pair.
fn is_found_by_run(verdict: &Verdict) -> bool
    ensures { IsTrue result ↔ IsFoundByRun verdict.now }
{
    match verdict {
        Verdict::Halt { .. } | Verdict::Cycler { .. } | Verdict::Translated { .. } => true,
        Verdict::Backward { .. } | Verdict::Undecided(_) => false,
    }
}

/// The limits of the first try: none is greater than its own here.
fn small_limits(limits: &Limits) -> Limits
    ensures smaller { NoneIsSmaller result limits.now }
    ensures few { result ≡ few_bounds limits.now }
{
    let steps = limits.steps().min(FEW_STEPS);
    let cells = limits.cells().min(FEW_CELLS);
    match Limits::new(steps, cells, 0, 0) {
        Ok(small) => small,
        Err(_) => unreachable!(),
    }
}

/// The verdict on a machine, on tapes of its own.
fn verdict_within(
    alloc: Global,
    limits: &Limits,
    plan: Plan,
    machine: &Machine,
    meter: &mut Meter,
) -> Result<Verdict, Memory>
    requires machine { IsMachine machine.now }
    ensures verdict { IfOk result (IsVerdict machine.now limits.now plan) }
    ensures numbers { IfOk result HasNumbers }
    ensures bound { IfOk result (CostsWhatItNames spread machine.now limits.now plan meter.new.steps) }
    ensures counted { OnOk result (CountsRuns spread machine.now limits.now plan meter.new) }
    ensures within { OnOk result (IsWithinCost limits.now meter.new) }
{
    let mut bench = ring_bench(alloc, limits)?;
    decide_in_single_pass(machine, limits, plan, &SpreadKeys, &mut bench, meter)
}
