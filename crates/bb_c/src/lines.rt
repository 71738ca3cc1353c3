//! The line of each machine of a list.
ghost use Rattle.std.specs.Prelude.{◌≡◌, ◌⊎◌, ◌↔◌, ◌≤◌, IfOk};
ghost use Rattle.bb_lines.specs.Lines.{AreReplies, lines};
ghost use Rattle.bb_machine.specs.Limits.{IsAccepted};
ghost use Rattle.bb_cover.specs.LineReply.{IsLineReply};
ghost use Rattle.bb_c.specs.Buffer.{IsFilled, IsTooShort, IsUntouched};
ghost use Rattle.bb_c.specs.Call.{pair_bounds_of};

use crate::buffer::{CLEAN, LIMITS, MEMORY, SHORT, fill_buffer};
use bb_cover::run_lines;
use bb_lines::watched::Watched;
use bb_machine::Limits;
use bb_tape::{Memory, RingTape};
use std::alloc::Global;
use std::cell::Cell;

/// Puts the line of each machine of a list into a buffer, each with a newline, and `unread` for each other
/// line. The list's lines end at a newline; a last line without one counts if it isn't empty.
#[unsafe(no_mangle)]
pub extern "C" fn bb_line_of(
    alloc: Global,
    steps: u64,
    cells: u64,
    list: &[u8],
    out: &mut [u8],
    count: &mut usize,
) -> u32
    ensures replies { result ≡ CLEAN
        → IsFilled (AreReplies (IsLineReply (pair_bounds_of steps cells)) (lines list.now))
        out.old out.new count.new }
    ensures limits { (result ≡ LIMITS) ↔ (IsAccepted (pair_bounds_of steps cells) → ⊥) }
    ensures untouched { (result ≡ LIMITS) ⊎ (result ≡ MEMORY) → IsUntouched out.old out.new count.new }
    ensures short { result ≡ SHORT
        → IsTooShort (AreReplies (IsLineReply (pair_bounds_of steps cells)) (lines list.now))
        out.old out.new count.new }
    ensures status { (result ≡ CLEAN) ⊎ (2 ≤ result × result ≤ SHORT) }
{
    *count = 0;
    let Ok(limits) = Limits::new(steps, cells, 0, 0) else {
        return LIMITS;
    };
    match lines_of(alloc, &limits, list) {
        Ok(replies) => fill_buffer(replies.as_slice(), true, out, count),
        Err(_) => MEMORY,
    }
}

/// The replies to the lines of a list.
fn lines_of(alloc: Global, limits: &Limits, list: &[u8]) -> Result<Vec<u8>, Memory>
    ensures { IfOk result
        (λ replies. AreReplies (IsLineReply limits.now) (lines list.now) replies.items) }
{
    let mut tape = RingTape::new(alloc, limits.cells())?;
    let mut reader = Watched::new(list);
    let mut writer = Watched::new(Vec::new(alloc));
    match run_lines(&mut reader, &mut writer, limits, &mut tape, &Cell::new(0)) {
        Ok(()) => Ok(writer.into_inner()),
        Err(_) => Err(Memory),
    }
}
