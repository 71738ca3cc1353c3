//! The exact recurrence behind each verdict line of a list.
ghost use Rattle.std.specs.Prelude.{◌≡◌, ◌↔◌, [], false, true, IsTrue};
ghost use Rattle.bb_tree.specs.Path.{depth_of};
ghost use Rattle.bb_lines.specs.Watched.{is_marked, watched_inner};
ghost use Rattle.bb_recurrence.specs.RecurrenceEnds.{RecurrenceEnds};
ghost use Rattle.bb_recurrence.specs.RecurrenceSeen.{is_clean};
ghost use Rattle.bb_recurrence.specs.Tapes.{HasMemoryFor, TapesHaveCells};
ghost use Rattle.bb_recurrence.specs.Writing.{BeginsWith, IsFindingText, IsKnown};

use crate::counts::RecurrenceCounts;
use crate::finder::Finder;
use crate::text::{Reply, append};
use crate::verdict::Finding;
use arrayvec::ArrayVec;
use bb_cert::{Answer, LINE_BUFFER, LineContent, read_line_in_place};
use bb_lines::fault::Fault;
use bb_lines::lines::run;
use bb_lines::responder::{REPLY, Responder};
use bb_lines::watched::Watched;
use bb_machine::{Limits, Machine};
use bb_run::Summary;
use bb_sim::Meter;
use bb_tape::Tape;
use std::alloc::AllocError;
use std::io::{Read, Write};

/// Replies to the verdict lines of a list with recurrences.
#[derive(Drop)]
struct Replier<'a, T> {
    limits: Limits,
    // Whether the last use of each entry is printed.
    entries: bool,
    finder: &'a mut Finder<T>,
    // The machine of the last line with one. Each is read in its place.
    machine: Machine,
    summary: Summary,
    // The steps and nodes of the last line; 0 before the first line and for a line without a run.
    last_cost: u64,
    counts: &'a RecurrenceCounts,
}

impl<T: Tape> Responder for Replier<'_, T> {
    ghost use Rattle.std.specs.Prelude.{◌≡◌, ◌+◌, ◌≤◌};
    ghost use Rattle.std.proofs.Common.{rules};
    ghost use Rattle.bb_cert.specs.declared.verdict.line.TheConstants.{LINE_BUFFER};
    ghost use Rattle.bb_tree.specs.Path.{depth_of};
    ghost use Rattle.bb_recurrence.specs.RecurrenceReply.{IsRecurrenceReply};
    ghost use Rattle.bb_recurrence.specs.RecurrenceSeen.{RecurrenceSaw};
    ghost use Rattle.bb_recurrence.specs.RecurrenceKeptBytes.{recurrence_reply_kept};
    ghost use Rattle.bb_recurrence.specs.RecurrenceKeptBytes.{recurrence_reply_of_kept};
    ghost use Rattle.bb_recurrence.specs.RecurrenceKeptBytes.{recurrence_saw_of_kept};
    ghost use Rattle.bb_recurrence.specs.Tapes.{HasMemoryFor};

    ghost replies_with = { λ r line reply. IsRecurrenceReply r.limits r.entries line reply };

    ghost saw = { λ a line b. (b.limits ≡ a.limits)
        × RecurrenceSaw a.limits a.summary line b.summary b.last_cost };

    ghost cost = { λ r. r.last_cost };

    ghost keeps = { λ a b. (b.limits ≡ a.limits) × (b.entries ≡ a.entries)
        × (b.finder.ghost_name ≡ a.finder.ghost_name)
        × (depth_of b.finder.now.path ≡ depth_of a.finder.now.path) };

    ghost is_ready = { λ r. HasMemoryFor T.view r.limits r.finder.now };

    ghost GROWS = { T.GROWS };

    ghost KEEP = { LINE_BUFFER + 1 };

    ghost keeps_at_first = { Prim.search rules };

    ghost keeps_on = { Prim.search rules };

    ghost keeps_reply = { λ a b keeps line text reply.
        recurrence_reply_kept b.limits a.limits b.entries a.entries line text keeps.0 keeps.1 reply };

    ghost keeps_some = { Prim.search rules };

    ghost keeps_few = { Prim.search rules };

    ghost reply_by_kept = { λ a line text reply.
        recurrence_reply_of_kept a.limits a.entries line text reply };

    ghost saw_by_kept = { λ a line b saw.
        (saw.0, recurrence_saw_of_kept a.limits line a.summary b.summary b.last_cost saw.1) };

    fn bytes_kept(&self) -> usize {
        LINE_BUFFER + 1
    }

    fn respond(&mut self, line: &[u8], text: &mut ArrayVec<u8, REPLY>) -> Result<u64, AllocError> {
        let verdict = match read_line_in_place(line, &mut self.machine) {
            Some(LineContent::Claim(verdict)) => verdict,
            Some(LineContent::Refusal(_)) => {
                self.last_cost = 0;
                self.counts.add_answer(Answer::Open);
                append(Answer::Open.word(), text);
                return Ok(0);
            }
            None => {
                self.summary.clean = false;
                self.last_cost = 0;
                self.counts.add_unread();
                append(b"unread", text);
                return Ok(0);
            }
        };
        let mut meter = Meter::new();
        let (machine, limits) = (&self.machine, &self.limits);
        let Ok(finding) = self.finder.find(machine, &verdict, limits, &mut meter) else {
            return Err(AllocError);
        };
        self.finding_into(line, &finding, text);
        self.limits.show_accepted();
        self.summary.clean = self.summary.clean & is_clean(&finding);
        self.summary.peak = self.summary.peak.greatest(meter);
        self.last_cost = meter.steps + meter.nodes;
        Ok(self.last_cost)
    }
}

impl<T> Replier<'_, T> {
    /// Writes the reply to a verdict on the machine read last into the empty text, and counts it. The line
    /// begins with the machine's text.
    fn finding_into(&self, line: &[u8], finding: &Finding, text: &mut ArrayVec<u8, REPLY>)
        requires line { BeginsWith self.now.machine line.now }
        requires known { IsKnown self.now.machine self.now.finder.now.uses finding.now }
        requires empty { text.old.items ≡ [] }
        ensures { IsFindingText self.now.machine self.now.entries finding.now text.new.items }
    {
        match finding {
            Finding::Recurs(recurrence) => {
                let uses = &self.finder.uses;
                let quasihalt = uses.quasihalt(&self.machine, recurrence.start);
                self.counts.add_recurrence(quasihalt.is_some());
                let reply = Reply {
                    machine: &self.machine,
                    recurrence: *recurrence,
                    uses,
                };
                reply.write(line, quasihalt, self.entries, text);
            }
            Finding::Answered(answer) => {
                self.counts.add_answer(*answer);
                append(answer.word(), text);
            }
            Finding::NoPair => {
                self.counts.add_answer(Answer::Open);
                append(Answer::Open.word(), text);
            }
        }
    }
}

/// Whether a run stays clean with this result.
fn is_clean(finding: &Finding) -> bool
    ensures { result ≡ is_clean finding.now }
{
    match finding {
        Finding::Recurs(_) | Finding::NoPair => true,
        Finding::Answered(_) => false,
    }
}

/// Writes the exact recurrence behind each confirmed pair of a list, the answer to each other pair, `open`
/// for each other verdict and each refusal, and `unread` for each other line.
///
/// The reply to a confirmed pair is the machine, ` recurs `, the start, the period, the shift in cells to the
/// right, and the last use of each state: the step, counted from 0, `*` for ever, or `-` never. If a state
/// has a last step, ` quasihalts ` follows, with the greatest of them plus 1. With `entries`, ` entries `
/// follows, with the last use of each entry in the table's order.
///
/// A line ends at a newline; a last line without one counts if it isn't empty. A line is counted once its
/// reply is known, before it is written. After a fault, don't use the reader and the writer again.
pub fn run_recurrence<R: Read, W: Write, T: Tape>(
    reader: &mut Watched<R>,
    writer: &mut Watched<W>,
    limits: &Limits,
    entries: bool,
    finder: &mut Finder<T>,
    counts: &RecurrenceCounts,
) -> Result<Summary, Fault>
    requires reader { is_marked reader.old ≡ false }
    requires writer { is_marked writer.old ≡ false }
    requires memory { HasMemoryFor T.view limits.now finder.old }

    // The result of the run, and the output written.
    ensures ends { RecurrenceEnds limits.now entries
        (R.remaining (watched_inner reader.old)) (R.remaining (watched_inner reader.new))
        (W.contents (watched_inner writer.old)) (W.contents (watched_inner writer.new)) result }

    // When each fault comes.
    ensures memory { result ≡ Err Fault.Memory → IsTrue T.GROWS }
    ensures read { (result ≡ Err Fault.Read) ↔ (is_marked reader.new ≡ true) }
    ensures write { (result ≡ Err Fault.Write) ↔ (is_marked writer.new ≡ true) }

    ensures tapes { TapesHaveCells T.view limits.now.cells finder.new.tapes }
    ensures path { depth_of finder.new.path ≡ depth_of finder.old.path }
{
    limits.show_accepted();
    let mut replier = Replier {
        limits: *limits,
        entries,
        finder,
        machine: Machine::blank(),
        summary: Summary {
            clean: true,
            peak: Meter::new(),
        },
        last_cost: 0,
        counts,
    };
    run(reader, writer, &mut replier)?;
    Ok(replier.summary)
}
