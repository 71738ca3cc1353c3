//! The validation of replies to the lines of a list.
ghost use Rattle.std.specs.Prelude.{◌≡◌, ◌≤◌};
ghost use Rattle.bb_lines.specs.Lines.{AreReplies, lines};
ghost use Rattle.bb_run.specs.Validation.{CountsReplies, HasForm, IsFirstWithout};

use crate::buffer::{CLEAN, NOT_CLEAN};
use bb_run::{KindCounts, validate_replies};

/// Validates the replies to the lines of a list: each line has one reply of its form, in order, with a
/// newline after it, and there are no more. Then it counts the replies of each kind, and the lines. Otherwise
/// it returns the index, from 0, of the first line without a reply; for superfluous replies, the number of
/// lines. It doesn't check whether a verdict is right. A line of the list ends at a newline; a last line
/// without one counts if it isn't empty.
#[unsafe(no_mangle)]
pub extern "C" fn bb_look(
    list: &[u8],
    replies: &[u8],
    counts: &mut KindCounts,
    line_count: &mut u64,
) -> u32
    ensures counts { result ≡ CLEAN
        → CountsReplies (lines list.now) replies.now counts.new line_count.new }
    ensures clean { result ≡ CLEAN → AreReplies HasForm (lines list.now) replies.now }
    ensures not_clean { result ≡ NOT_CLEAN → AreReplies HasForm (lines list.now) replies.now → ⊥ }
    ensures first { result ≡ NOT_CLEAN → IsFirstWithout (lines list.now) replies.now line_count.new }
    ensures untouched { result ≡ NOT_CLEAN → counts.new ≡ counts.old }
    ensures status { result ≤ NOT_CLEAN }
{
    match validate_replies(list, replies) {
        Ok(check) => {
            *counts = check.counts;
            *line_count = check.lines;
            CLEAN
        }
        Err(mismatch) => {
            *line_count = mismatch.line;
            NOT_CLEAN
        }
    }
}
