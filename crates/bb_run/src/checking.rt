//! Answers to the verdict lines of a list, a word each.
ghost use Rattle.std.specs.Prelude.{◌≡◌, ◌↔◌, ◌≤◌, [], false, true, IsTrue, length};
ghost use Rattle.bb_cert.specs.checker.Pair.{PairHasCells};
ghost use Rattle.bb_tree.specs.Path.{depth_of};
ghost use Rattle.bb_lines.specs.Watched.{is_marked, watched_inner};
ghost use Rattle.bb_run.specs.CheckEnds.{CheckEnds};

use crate::counts::AnswerCounts;
use crate::summary::Summary;
use arrayvec::ArrayVec;
use bb_cert::{Answer, LINE_BUFFER, LineContent, Pair, Path, check, read_line_in_place};
use bb_lines::fault::Fault;
use bb_lines::lines::run;
use bb_lines::responder::{REPLY, Responder};
use bb_lines::watched::Watched;
use bb_machine::{Limits, Machine};
use bb_sim::Meter;
use bb_tape::Tape;
use std::alloc::AllocError;
use std::io::{Read, Write};

/// Replies to the verdict lines of a list with answers.
#[derive(Drop)]
struct Checker<'a, T> {
    limits: Limits,
    pair: &'a mut Pair<T>,
    path: &'a mut Path,
    // The machine of the last line with one. Each is read in its place.
    machine: Machine,
    summary: Summary,
    // The steps and nodes of the last line; 0 before the first line and for a line without a run.
    last_cost: u64,
    counts: &'a AnswerCounts,
}

impl<T: Tape> Responder for Checker<'_, T> {
    ghost use Rattle.std.specs.Prelude.{◌≡◌, ◌+◌, ◌≤◌};
    ghost use Rattle.std.proofs.Common.{rules};
    ghost use Rattle.bb_cert.specs.declared.verdict.line.TheConstants.{LINE_BUFFER};
    ghost use Rattle.bb_cert.specs.checker.Pair.{PairHasCells};
    ghost use Rattle.bb_tree.specs.Path.{depth_of};
    ghost use Rattle.bb_run.specs.CheckReply.{IsCheckReply};
    ghost use Rattle.bb_run.specs.CheckSeen.{CheckSaw};
    ghost use Rattle.bb_run.specs.CheckKeptBytes.{check_reply_kept, check_reply_of_kept, check_saw_of_kept};

    ghost replies_with = { λ c line reply. IsCheckReply c.limits line reply };

    ghost saw = { λ a line b. (b.limits ≡ a.limits)
        × CheckSaw a.limits a.summary line b.summary b.last_cost };

    ghost cost = { λ c. c.last_cost };

    ghost keeps = { λ a b. (b.limits ≡ a.limits) × (b.pair.ghost_name ≡ a.pair.ghost_name)
        × (b.path.ghost_name ≡ a.path.ghost_name) × (depth_of b.path.now ≡ depth_of a.path.now) };

    ghost is_ready = { λ c. PairHasCells T.view c.limits.cells c.pair.now
        × (c.limits.depth ≤ depth_of c.path.now) };

    ghost GROWS = { T.GROWS };

    ghost KEEP = { LINE_BUFFER + 1 };

    ghost keeps_at_first = { Prim.search rules };

    ghost keeps_on = { Prim.search rules };

    ghost keeps_reply = { λ a b keeps line text reply.
        check_reply_kept b.limits a.limits line text keeps.0 reply };

    ghost keeps_some = { Prim.search rules };

    ghost keeps_few = { Prim.search rules };

    ghost reply_by_kept = { λ a line text reply. check_reply_of_kept a.limits line text reply };

    ghost saw_by_kept = { λ a line b saw.
        (saw.0, check_saw_of_kept a.limits line a.summary b.summary b.last_cost saw.1) };

    fn bytes_kept(&self) -> usize {
        LINE_BUFFER + 1
    }

    fn respond(&mut self, line: &[u8], text: &mut ArrayVec<u8, REPLY>) -> Result<u64, AllocError> {
        let verdict = match read_line_in_place(line, &mut self.machine) {
            Some(LineContent::Claim(verdict)) => verdict,
            Some(LineContent::Refusal(_)) => {
                self.last_cost = 0;
                self.counts.add(Answer::Open);
                put(Answer::Open.word(), text);
                return Ok(0);
            }
            None => {
                self.summary.clean = false;
                self.last_cost = 0;
                self.counts.add_unread();
                put(b"unread", text);
                return Ok(0);
            }
        };
        self.limits.show_accepted();
        let mut meter = Meter::new();
        let Ok(answer) = check(
            &self.machine,
            &verdict,
            &self.limits,
            self.pair,
            self.path,
            &mut meter,
        ) else {
            return Err(AllocError);
        };
        put(answer.word(), text);
        self.summary.clean = self.summary.clean & answer.is_fine();
        self.summary.peak = self.summary.peak.greatest(meter);
        self.last_cost = meter.steps + meter.nodes;
        self.counts.add(answer);
        Ok(self.last_cost)
    }
}

/// Writes a word into an empty text.
fn put(word: &[u8], text: &mut ArrayVec<u8, REPLY>)
    requires empty { text.old.items ≡ [] }
    requires short { length word.now ≤ REPLY }
    ensures { text.new.items ≡ word.now }
{
    text.try_extend_from_slice(word).unwrap();
}

/// Writes the answer to each verdict line of a list, `open` for each refusal, and `unread` for each other
/// line.
///
/// A line ends at a newline; a last line without one counts if it isn't empty. After a fault, don't use the
/// reader and the writer again.
pub fn run_check<R: Read, W: Write, T: Tape>(
    reader: &mut Watched<R>,
    writer: &mut Watched<W>,
    limits: &Limits,
    pair: &mut Pair<T>,
    path: &mut Path,
) -> Result<Summary, Fault>
    requires reader { is_marked reader.old ≡ false }
    requires writer { is_marked writer.old ≡ false }
    requires tapes { PairHasCells T.view limits.now.cells pair.old }
    requires path { limits.now.depth ≤ depth_of path.old }

    // The result of the run, and the output written.
    ensures ends { CheckEnds limits.now
        (R.remaining (watched_inner reader.old)) (R.remaining (watched_inner reader.new))
        (W.contents (watched_inner writer.old)) (W.contents (watched_inner writer.new)) result }

    // When each fault comes.
    ensures memory { result ≡ Err Fault.Memory → IsTrue T.GROWS }
    ensures read { (result ≡ Err Fault.Read) ↔ (is_marked reader.new ≡ true) }
    ensures write { (result ≡ Err Fault.Write) ↔ (is_marked writer.new ≡ true) }

    ensures tapes { PairHasCells T.view limits.now.cells pair.new }
    ensures path { depth_of path.new ≡ depth_of path.old }
{
    let counts = AnswerCounts::default();
    run_check_with_counts(reader, writer, limits, pair, path, &counts)
}

/// The same as [`run_check`], with counts. A line is counted once its reply is known, before it is written.
pub fn run_check_with_counts<R: Read, W: Write, T: Tape>(
    reader: &mut Watched<R>,
    writer: &mut Watched<W>,
    limits: &Limits,
    pair: &mut Pair<T>,
    path: &mut Path,
    counts: &AnswerCounts,
) -> Result<Summary, Fault>
    requires reader { is_marked reader.old ≡ false }
    requires writer { is_marked writer.old ≡ false }
    requires tapes { PairHasCells T.view limits.now.cells pair.old }
    requires path { limits.now.depth ≤ depth_of path.old }

    // The result of the run, and the output written.
    ensures ends { CheckEnds limits.now
        (R.remaining (watched_inner reader.old)) (R.remaining (watched_inner reader.new))
        (W.contents (watched_inner writer.old)) (W.contents (watched_inner writer.new)) result }

    // When each fault comes.
    ensures memory { result ≡ Err Fault.Memory → IsTrue T.GROWS }
    ensures read { (result ≡ Err Fault.Read) ↔ (is_marked reader.new ≡ true) }
    ensures write { (result ≡ Err Fault.Write) ↔ (is_marked writer.new ≡ true) }

    ensures tapes { PairHasCells T.view limits.now.cells pair.new }
    ensures path { depth_of path.new ≡ depth_of path.old }
{
    let mut checker = Checker {
        limits: *limits,
        pair,
        path,
        machine: Machine::blank(),
        summary: Summary {
            clean: true,
            peak: Meter::new(),
        },
        last_cost: 0,
        counts,
    };
    run(reader, writer, &mut checker)?;
    Ok(checker.summary)
}
