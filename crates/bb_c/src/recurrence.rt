//! The exact recurrence behind each pair of a list.
ghost use Rattle.std.specs.Prelude.{◌≡◌, ◌≢◌, ◌+◌, ◌*◌, ◌⊎◌, ◌↔◌, ◌≤◌, IfOk, IsTrue, length};
ghost use Rattle.std.specs.List.{AllByRecursion};
ghost use Rattle.bb_lines.specs.Lines.{AreReplies, lines};
ghost use Rattle.bb_machine.specs.Limits.{IsAccepted};
ghost use Rattle.bb_recurrence.specs.RecurrenceReply.{IsRecurrenceReply};
ghost use Rattle.bb_recurrence.specs.RecurrenceSummary.{IsFine};
ghost use Rattle.bb_c.specs.Buffer.{IsFilled, IsTooShort, IsUntouched};
ghost use Rattle.bb_c.specs.Call.{pair_bounds_of};

use crate::buffer::{CLEAN, LIMITS, MEMORY, NOT_CLEAN, SHORT, fill_buffer};
use bb_lines::watched::Watched;
use bb_machine::Limits;
use bb_recurrence::laws::recurrence_replies_are_short;
use bb_recurrence::{RecurrenceCounts, ring_finder, run_recurrence};
use bb_tape::Memory;
use std::alloc::Global;

/// Puts the reply to each verdict line of a list into a buffer, each with a newline: the exact recurrence of
/// a pair, with the last use of each entry if `entries`. The list's lines end at a newline; a last line
/// without one counts if it isn't empty.
#[unsafe(no_mangle)]
pub extern "C" fn bb_recurrence(
    alloc: Global,
    steps: u64,
    cells: u64,
    entries: bool,
    list: &[u8],
    out: &mut [u8],
    count: &mut usize,
) -> u32
    ensures replies { (result ≡ CLEAN) ⊎ (result ≡ NOT_CLEAN)
        → IsFilled (AreReplies (IsRecurrenceReply (pair_bounds_of steps cells) entries) (lines list.now))
        out.old out.new count.new }
    ensures clean { result ≡ CLEAN
        → AllByRecursion (IsFine (pair_bounds_of steps cells)) (lines list.now) }
    ensures not_fine { result ≡ NOT_CLEAN
        → AllByRecursion (IsFine (pair_bounds_of steps cells)) (lines list.now) → ⊥ }
    ensures limits { (result ≡ LIMITS) ↔ (IsAccepted (pair_bounds_of steps cells) → ⊥) }
    ensures untouched { (result ≡ LIMITS) ⊎ (result ≡ MEMORY) → IsUntouched out.old out.new count.new }
    ensures short { result ≡ SHORT
        → IsTooShort (AreReplies (IsRecurrenceReply (pair_bounds_of steps cells) entries) (lines list.now))
        out.old out.new count.new }

    // A buffer long enough for any list.
    ensures enough { 7 * length list.now + 90 * length (lines list.now) ≤ length out.old → result ≢ SHORT }

    ensures status { result ≤ SHORT }
{
    *count = 0;
    let Ok(limits) = Limits::new(steps, cells, 0, 0) else {
        return LIMITS;
    };
    limits.show_accepted();
    recurrence_replies_are_short();
    match recurrences(alloc, &limits, entries, list) {
        Ok((replies, clean)) => fill_buffer(replies.as_slice(), clean, out, count),
        Err(_) => MEMORY,
    }
}

/// The replies to the lines of a list, and whether each is fine.
fn recurrences(
    alloc: Global,
    limits: &Limits,
    entries: bool,
    list: &[u8],
) -> Result<(Vec<u8>, bool), Memory>
    ensures replies { IfOk result
        (λ given. AreReplies (IsRecurrenceReply limits.now entries) (lines list.now) given.0.items) }
    ensures clean { IfOk result
        (λ given. IsTrue given.1 ↔ AllByRecursion (IsFine limits.now) (lines list.now)) }
{
    let mut finder = ring_finder(alloc, limits)?;
    let mut reader = Watched::new(list);
    let mut writer = Watched::new(Vec::new(alloc));
    let counts = RecurrenceCounts::default();
    match run_recurrence(
        &mut reader,
        &mut writer,
        limits,
        entries,
        &mut finder,
        &counts,
    ) {
        Ok(summary) => Ok((writer.into_inner(), summary.clean)),
        Err(_) => Err(Memory),
    }
}
