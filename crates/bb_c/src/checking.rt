//! Answers to the verdict lines of a list, and to one.
ghost use Rattle.std.specs.Prelude.{◌≡◌, ◌≢◌, ◌*◌, ◌⊎◌, ◌↔◌, ◌≤◌, IfOk, IsTrue, length};
ghost use Rattle.std.specs.List.{AllByRecursion};
ghost use Rattle.bb_lines.specs.Lines.{AreReplies, lines};
ghost use Rattle.bb_machine.specs.Limits.{IsAccepted};
ghost use Rattle.bb_cert.specs.checker.Answer.{IsAnswer};
ghost use Rattle.bb_run.specs.CheckReply.{IsCheckReply};
ghost use Rattle.bb_run.specs.CheckSummary.{IsFine};
ghost use Rattle.bb_c.specs.Buffer.{IsFilled, IsTooShort, IsUntouched};
ghost use Rattle.bb_c.specs.Call.{IsVerdictLine, bounds_of};

use crate::buffer::{CLEAN, LIMITS, MEMORY, NOT_CLEAN, SHORT, fill_buffer};
use bb_cert::{Answer, Line, Verdict, check, read_line, ring_pair};
use bb_lines::watched::Watched;
use bb_machine::{Limits, Machine};
use bb_run::run_check;
use bb_sim::Meter;
use bb_tape::Memory;
use std::alloc::Global;

/// Puts an answer to each verdict line of a list into a buffer, each with a newline. The list's lines end at
/// a newline; a last line without one counts if it isn't empty.
#[unsafe(no_mangle)]
pub extern "C" fn bb_check(
    alloc: Global,
    steps: u64,
    cells: u64,
    depth: u64,
    nodes: u64,
    list: &[u8],
    out: &mut [u8],
    count: &mut usize,
) -> u32
    ensures replies { (result ≡ CLEAN) ⊎ (result ≡ NOT_CLEAN)
        → IsFilled (AreReplies (IsCheckReply (bounds_of steps cells depth nodes)) (lines list.now))
        out.old out.new count.new }
    ensures clean { result ≡ CLEAN
        → AllByRecursion (IsFine (bounds_of steps cells depth nodes)) (lines list.now) }
    ensures not_fine { result ≡ NOT_CLEAN
        → AllByRecursion (IsFine (bounds_of steps cells depth nodes)) (lines list.now) → ⊥ }
    ensures limits { (result ≡ LIMITS) ↔ (IsAccepted (bounds_of steps cells depth nodes) → ⊥) }
    ensures untouched { (result ≡ LIMITS) ⊎ (result ≡ MEMORY) → IsUntouched out.old out.new count.new }
    ensures short { result ≡ SHORT
        → IsTooShort (AreReplies (IsCheckReply (bounds_of steps cells depth nodes)) (lines list.now))
        out.old out.new count.new }

    // A buffer long enough for any list.
    ensures enough { 7 * length (lines list.now) ≤ length out.old → result ≢ SHORT }

    ensures status { result ≤ SHORT }
{
    *count = 0;
    let Ok(limits) = Limits::new(steps, cells, depth, nodes) else {
        return LIMITS;
    };
    match answers(alloc, &limits, list) {
        Ok((replies, clean)) => fill_buffer(replies.as_slice(), clean, out, count),
        Err(_) => MEMORY,
    }
}

/// The answers to the lines of a list, and whether each is fine.
fn answers(alloc: Global, limits: &Limits, list: &[u8]) -> Result<(Vec<u8>, bool), Memory>
    ensures replies { IfOk result
        (λ given. AreReplies (IsCheckReply limits.now) (lines list.now) given.0.items) }
    ensures clean { IfOk result
        (λ given. IsTrue given.1 ↔ AllByRecursion (IsFine limits.now) (lines list.now)) }
{
    let (mut pair, mut path) = ring_pair(alloc, limits)?;
    let mut reader = Watched::new(list);
    let mut writer = Watched::new(Vec::new(alloc));
    match run_check(&mut reader, &mut writer, limits, &mut pair, &mut path) {
        Ok(summary) => Ok((writer.into_inner(), summary.clean)),
        Err(_) => Err(Memory),
    }
}

/// Puts the answer to one verdict line into a buffer, without a newline. The line is read before any tape is
/// made.
#[unsafe(no_mangle)]
pub extern "C" fn bb_check_line(
    alloc: Global,
    steps: u64,
    cells: u64,
    depth: u64,
    nodes: u64,
    line: &[u8],
    out: &mut [u8],
    count: &mut usize,
) -> u32
    ensures reply { (result ≡ CLEAN) ⊎ (result ≡ NOT_CLEAN)
        → IsFilled (IsCheckReply (bounds_of steps cells depth nodes) line.now) out.old out.new count.new }
    ensures clean { result ≡ CLEAN → IsFine (bounds_of steps cells depth nodes) line.now }
    ensures not_fine { result ≡ NOT_CLEAN → IsFine (bounds_of steps cells depth nodes) line.now → ⊥ }
    ensures limits { (result ≡ LIMITS) ↔ (IsAccepted (bounds_of steps cells depth nodes) → ⊥) }
    ensures memory { result ≡ MEMORY → IsVerdictLine line.now }
    ensures untouched { (result ≡ LIMITS) ⊎ (result ≡ MEMORY) → IsUntouched out.old out.new count.new }
    ensures short { result ≡ SHORT
        → IsTooShort (IsCheckReply (bounds_of steps cells depth nodes) line.now) out.old out.new count.new }

    // A buffer long enough for any line.
    ensures enough { 6 ≤ length out.old → result ≢ SHORT }

    ensures status { result ≤ SHORT }
{
    *count = 0;
    let Ok(limits) = Limits::new(steps, cells, depth, nodes) else {
        return LIMITS;
    };
    match read_line(line) {
        None => fill_buffer(b"unread", false, out, count),
        Some(Line::Refusal(_)) => fill_buffer(Answer::Open.word(), true, out, count),
        Some(Line::Claim(machine, verdict)) => match answer(alloc, &limits, &machine, &verdict) {
            Ok(answer) => fill_buffer(answer.word(), answer.is_fine(), out, count),
            Err(_) => MEMORY,
        },
    }
}

/// The answer to a machine and a verdict on it.
fn answer(
    alloc: Global,
    limits: &Limits,
    machine: &Machine,
    verdict: &Verdict,
) -> Result<Answer, Memory>
    ensures { IfOk result (IsAnswer machine.now limits.now verdict.now) }
{
    let (mut pair, mut path) = ring_pair(alloc, limits)?;
    let mut meter = Meter::new();
    check(machine, verdict, limits, &mut pair, &mut path, &mut meter)
}
