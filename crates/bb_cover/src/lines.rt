//! The lines of the machines of a list.
ghost use Rattle.std.specs.Prelude.{◌≡◌, ◌↔◌, false, true, IsTrue};
ghost use Rattle.bb_lines.specs.Watched.{is_marked, watched_inner};
ghost use Rattle.bb_cover.specs.LineEnds.{LineEnds};

use crate::line::line_of;
use crate::line_text::line_into;
use crate::text::append;
use arrayvec::ArrayVec;
use bb_lines::fault::Fault;
use bb_lines::lines::run;
use bb_lines::responder::{REPLY, Responder};
use bb_lines::watched::Watched;
use bb_machine::{LINE, Limits, Machine};
use bb_tape::Tape;
use std::alloc::AllocError;
use std::cell::Cell;
use std::io::{Read, Write};

/// Replies to machines with their lines.
#[derive(Drop)]
struct LineFinder<'a, T> {
    limits: Limits,
    tape: &'a mut T,
    // The number of lines so far, for progress reports.
    seen: &'a Cell<u64>,
}

impl<T: Tape> Responder for LineFinder<'_, T> {
    ghost use Rattle.std.specs.Prelude.{◌≡◌, ◌+◌};
    ghost use Rattle.std.proofs.Common.{rules};
    ghost use Rattle.bb_machine.specs.declared.machine.TheConstants.{LINE};
    ghost use Rattle.bb_cover.specs.LineKeptBytes.{line_reply_of_kept, same_reply};
    ghost use Rattle.bb_cover.specs.LineReply.{IsLineReply};

    ghost replies_with = { λ r line reply. IsLineReply r.limits line reply };

    ghost saw = { λ a line b. Unit {0} };

    ghost cost = { λ r. 0 };

    ghost keeps = { λ a b. (b.limits ≡ a.limits) × (b.tape.ghost_name ≡ a.tape.ghost_name) };

    ghost is_ready = { λ r. (T.view r.tape.now).limit ≡ r.limits.cells };

    ghost GROWS = { T.GROWS };

    ghost KEEP = { LINE + 1 };

    ghost keeps_at_first = { Prim.search rules };

    ghost keeps_on = { Prim.search rules };

    ghost keeps_reply = { λ a b keeps line text reply. same_reply b.limits a.limits line text keeps.0 reply };

    ghost keeps_some = { Prim.search rules };

    ghost keeps_few = { Prim.search rules };

    ghost reply_by_kept = { λ a line text reply. line_reply_of_kept a.limits line text reply };

    ghost saw_by_kept = { λ a line b saw. tt };

    fn bytes_kept(&self) -> usize {
        LINE + 1
    }

    fn respond(&mut self, line: &[u8], text: &mut ArrayVec<u8, REPLY>) -> Result<u64, AllocError> {
        self.seen.set(self.seen.get().wrapping_add(1));
        let Ok(machine) = Machine::read(line) else {
            append(b"unread", text);
            return Ok(0);
        };
        let Ok(found) = line_of(&machine, &self.limits, self.tape) else {
            return Err(AllocError);
        };
        line_into(&machine, &found, text);
        Ok(0)
    }
}

/// Replies to each machine of a list with its line within these limits, and with `unread` to each other line.
///
/// The reply has the machine, ` line `, the line's machine, ` mirror ` if left and right are swapped or else
/// ` same `, the machine's names of the line's states and of its symbols, and the end of the line's run: `
/// runs`, or ` halt `, the steps, the score, and the machine's own entry for the `---` there.
///
/// A line ends at a newline; a last line without one counts if it isn't empty. After a fault, don't use the
/// reader and the writer again.
pub fn run_lines<R: Read, W: Write, T: Tape>(
    reader: &mut Watched<R>,
    writer: &mut Watched<W>,
    limits: &Limits,
    tape: &mut T,
    seen: &Cell<u64>,
) -> Result<(), Fault>
    requires reader { is_marked reader.old ≡ false }
    requires writer { is_marked writer.old ≡ false }
    requires tape { (T.view tape.old).limit ≡ limits.now.cells }

    // The result of the run, and the output written.
    ensures ends { LineEnds limits.now
        (R.remaining (watched_inner reader.old)) (R.remaining (watched_inner reader.new))
        (W.contents (watched_inner writer.old)) (W.contents (watched_inner writer.new)) result }

    // When each fault comes.
    ensures memory { result ≡ Err Fault.Memory → IsTrue T.GROWS }
    ensures read { (result ≡ Err Fault.Read) ↔ (is_marked reader.new ≡ true) }
    ensures write { (result ≡ Err Fault.Write) ↔ (is_marked writer.new ≡ true) }
    ensures tape { (T.view tape.new).limit ≡ limits.now.cells }
{
    let mut finder = LineFinder {
        limits: *limits,
        tape,
        seen,
    };
    run(reader, writer, &mut finder)
}
