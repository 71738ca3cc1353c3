//! How many lines of each kind a list has.
ghost use Rattle.std.specs.Prelude.{◌≡◌, ◌↔◌, ◌+◌, IsTrue, map, max, nat_lt, option_map};
ghost use Rattle.bb_cover.specs.Counts.{counted, counted_claim, counted_shard, is_among, is_sought, marks_of};
ghost use Rattle.bb_cover.specs.Counts.{more_if, no_counts, placed, saturated};
ghost use Rattle.bb_cover.specs.CoverProgress.{HasRoom};
ghost use Rattle.bb_cover.specs.UndefinedEntries.{undefined_entries_of};

use crate::content::{Content, ShardCounts};
use crate::table::count_undefined_entries;
use crate::task::Task;
use crate::text::{Text, text_of};
use bb_cert::Verdict;
use bb_machine::Machine;

/// How many lines were visited, and how many have each verdict.
#[derive(Clone, Copy, Debug, PartialEq, Eq)]
pub struct Counts {
    /// The lines of the list itself.
    pub read: u64,
    /// Those that stand for a shard.
    pub shards: u64,
    /// All verdict lines: those of the list, and those of its shards.
    pub lines: u64,
    /// The machine halts.
    pub halt: u64,
    /// It never halts: a configuration comes again.
    pub cycler: u64,
    /// It never halts: records of a side agree.
    pub translated: u64,
    /// It never halts: the backward tree ends.
    pub backward: u64,
    /// It is undecided, in the list or a shard.
    pub undecided: u64,
    /// It is undecided and has more than one `---`, in the list or a shard.
    pub wide: u64,
    /// It is undecided in the list, and assumed never to halt.
    pub assumed: u64,
    /// The greatest steps of the list's halts, without those of shards; 0 if there is none.
    pub most_steps: u64,
    /// Their greatest score.
    pub most_score: u64,
    /// The number, counted from 1, of the list's line with the machine that is sought; 0 if none has it.
    pub place: u64,
}

impl Counts {
    /// Nothing counted yet.
    pub(crate) fn new() -> Counts
        ensures { result ≡ no_counts }
    {
        Counts {
            read: 0,
            shards: 0,
            lines: 0,
            halt: 0,
            cycler: 0,
            translated: 0,
            backward: 0,
            undecided: 0,
            wide: 0,
            assumed: 0,
            most_steps: 0,
            most_score: 0,
            place: 0,
        }
    }

    /// Whether all lines can still be counted with those of a content.
    pub(crate) fn has_room(&self, content: &Content) -> bool
        ensures { IsTrue result ↔ HasRoom self.now.lines content.now }
    {
        let lines = match content {
            Content::Claim(_) => 1,
            Content::Shard(shard) => shard.lines,
        };
        lines <= u64::MAX - self.lines
    }

    /// Counts a line.
    pub(crate) fn add(&mut self, task: &Task, machine: &Machine, content: &Content)
        ensures { self.new ≡ counted (marks_of task.now) self.old
            (record { table = machine.now; content = content.now }) }
    {
        self.find_place(&task.sought, machine);
        match content {
            Content::Claim(verdict) => self.add_verdict(task.assumed.as_slice(), machine, verdict),
            Content::Shard(shard) => self.add_shard(*shard),
        }
    }

    /// Keeps the next line's number, if it has the machine that is sought.
    fn find_place(&mut self, sought: &Option<Text>, machine: &Machine)
        ensures { self.new ≡ placed (option_map (λ one. one.items) sought.now) self.old machine.now }
    {
        if is_sought(sought, machine) {
            self.place = self.read.saturating_add(1);
        }
    }

    /// Counts the line of a verdict.
    fn add_verdict(&mut self, assumed: &[Text], machine: &Machine, verdict: &Verdict)
        ensures { self.new ≡ counted_claim (map (λ one. one.items) assumed.now) self.old
            (record { table = machine.now; verdict = verdict.now }) }
    {
        self.read = self.read.saturating_add(1);
        self.lines = self.lines.saturating_add(1);
        match *verdict {
            Verdict::Halt { steps, score } => self.add_halt(steps, score),
            Verdict::Cycler { .. } => self.cycler = self.cycler.saturating_add(1),
            Verdict::Translated { .. } => self.translated = self.translated.saturating_add(1),
            Verdict::Backward { .. } => self.backward = self.backward.saturating_add(1),
            Verdict::Undecided(_) => self.add_undecided(assumed, machine),
        }
    }

    /// Counts the line of a shard, and the lines for which it stands.
    fn add_shard(&mut self, shard: ShardCounts)
        ensures { self.new ≡ counted_shard self.old shard }
    {
        self.read = self.read.saturating_add(1);
        self.shards = self.shards.saturating_add(1);
        self.lines = self.lines.saturating_add(shard.lines);
        self.undecided = self.undecided.saturating_add(shard.undecided);
        self.wide = self.wide.saturating_add(shard.wide);
    }

    /// Counts a halt, as such alone.
    fn add_halt(&mut self, steps: u64, score: u64)
        ensures { self.new ≡ record self.old {
          halt = saturated (self.old.halt + 1);
          most_steps = max self.old.most_steps steps;
          most_score = max self.old.most_score score;
        } }
    {
        self.halt = self.halt.saturating_add(1);
        self.most_steps = self.most_steps.max(steps);
        self.most_score = self.most_score.max(score);
    }

    /// Counts an undecided line, as such alone.
    fn add_undecided(&mut self, assumed: &[Text], machine: &Machine)
        ensures { self.new ≡ record self.old {
          undecided = saturated (self.old.undecided + 1);
          wide = more_if (nat_lt 1 (undefined_entries_of machine.now)) self.old.wide;
          assumed = more_if (is_among (map (λ one. one.items) assumed.now) machine.now) self.old.assumed;
        } }
    {
        self.undecided = self.undecided.saturating_add(1);
        if is_among(assumed, machine) {
            self.assumed = self.assumed.saturating_add(1);
        }
        if count_undefined_entries(machine) > 1 {
            self.wide = self.wide.saturating_add(1);
        }
    }
}

/// Whether the text of a machine is one of these.
fn is_among(assumed: &[Text], machine: &Machine) -> bool
    ensures { result ≡ is_among (map (λ one. one.items) assumed.now) machine.now }
{
    assumed.contains(&text_of(machine))
}

/// Whether a machine is the one that is sought.
fn is_sought(sought: &Option<Text>, machine: &Machine) -> bool
    ensures { result ≡ is_sought (option_map (λ one. one.items) sought.now) machine.now }
{
    match sought {
        Some(words) => *words == text_of(machine),
        None => false,
    }
}
