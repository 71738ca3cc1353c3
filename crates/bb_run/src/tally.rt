//! The common part of replies to the lines of a list, for each way to decide a machine.
ghost use Rattle.std.specs.Prelude.{◌≡◌, ◌+◌, ◌<◌, ◌^◌, [], ◌++◌, IsFalse, IsTrue, true};
ghost use Rattle.bb_machine.specs.Machine.{IsTextOf};
ghost use Rattle.bb_sim.specs.Meter.{greatest_of, zero_meter};
ghost use Rattle.bb_cert.specs.verdict.Line.{verdict_text};
ghost use Rattle.bb_cert.specs.verdict.Verdict.{HasNumbers};
ghost use Rattle.bb_run.specs.Reply.{IsRefusal};
ghost use Rattle.bb_run.specs.Seen.{SawRefusal};

use crate::counts::VerdictCounts;
use crate::summary::Summary;
use arrayvec::ArrayVec;
use bb_cert::{LINE_BUFFER, Verdict, lines_are_short, refusal_into, verdict_into};
use bb_lines::responder::REPLY;
use bb_machine::Machine;
use bb_sim::Meter;

/// The machine read last, and the summary so far.
#[derive(Drop)]
pub(crate) struct Tally<'a> {
    /// The machine of the last line with one. Each is read in its place.
    pub(crate) machine: Machine,
    pub(crate) summary: Summary,
    /// The steps and nodes of the last line; 0 before the first line and for a refused one.
    pub(crate) last_cost: u64,
    counts: &'a VerdictCounts,
    // The last refusal. A new buffer for each one would be cleared whole.
    refusal: ArrayVec<u8, LINE_BUFFER>,
}

impl<'a> Tally<'a> {
    /// No line came yet.
    pub(crate) fn new(counts: &'a VerdictCounts) -> Tally<'a>
        ensures { result.summary ≡ record { clean = true; peak = zero_meter } }
    {
        Tally {
            machine: Machine::blank(),
            summary: Summary {
                clean: true,
                peak: Meter::new(),
            },
            last_cost: 0,
            counts,
            refusal: ArrayVec::new(),
        }
    }

    /// Reads a line's machine. If it has none, writes the refusal into the empty text.
    #[inline(always)]
    pub(crate) fn read(&mut self, line: &[u8], text: &mut ArrayVec<u8, REPLY>) -> bool
        requires empty { text.old.items ≡ [] }
        ensures found { IsTrue result → IsTextOf self.new.machine line.now }
        ensures empty { IsTrue result → text.new.items ≡ [] }
        ensures stays { IsTrue result → self.new.summary ≡ self.old.summary }
        ensures refused { IsFalse result → IsRefusal line.now text.new.items }
        ensures saw { IsFalse result
            → SawRefusal self.old.summary line.now self.new.summary self.new.last_cost }
    {
        match self.machine.read_in_place(line) {
            Ok(()) => true,
            Err(refused) => {
                self.summary.clean = false;
                self.last_cost = 0;
                self.counts.add_refusal();
                self.refusal.clear();
                refusal_into(refused.column, &mut self.refusal);
                text.try_extend_from_slice(self.refusal.as_slice()).unwrap();
                false
            }
        }
    }

    /// Writes the line of the last machine and its verdict into the empty text, counts it, and returns its
    /// cost.
    #[inline(always)]
    pub(crate) fn reply(
        &mut self,
        line: &[u8],
        verdict: &Verdict,
        meter: Meter,
        text: &mut ArrayVec<u8, REPLY>,
    ) -> u64
        requires of { IsTextOf self.old.machine line.now }
        requires numbers { HasNumbers verdict.now }
        requires cost { meter.steps + meter.nodes < 2 ^ 64 }
        requires empty { text.old.items ≡ [] }
        ensures line { text.new.items ≡ line.now ++ verdict_text verdict.now }
        ensures clean { self.new.summary.clean ≡ self.old.summary.clean }
        ensures peak { self.new.summary.peak ≡ greatest_of self.old.summary.peak meter }
        ensures cost { self.new.last_cost ≡ meter.steps + meter.nodes }
        ensures result { result ≡ self.new.last_cost }
    {
        lines_are_short();
        // The line is the machine's text, so it isn't written anew.
        text.try_extend_from_slice(line).unwrap();
        verdict_into(verdict, text);
        self.summary.peak = self.summary.peak.greatest(meter);
        self.last_cost = meter.steps + meter.nodes;
        self.counts.add(verdict);
        self.last_cost
    }
}
