//! The counts of a list so far, for progress reports.
use bb_cert::{Answer, Verdict};
use std::cell::Cell;

/// The number of machines with each verdict, and of refused lines.
///
/// A reader or a writer called by the run may look at it. No clause mentions the counts.
#[derive(Default, Drop)]
pub struct VerdictCounts {
    /// It halts.
    pub halt: Cell<u64>,
    /// It never halts: a configuration comes again.
    pub cycler: Cell<u64>,
    /// It never halts: records of a side agree.
    pub translated: Cell<u64>,
    /// It never halts: the backward tree ends.
    pub backward: Cell<u64>,
    /// Nothing was found within the limits.
    pub undecided: Cell<u64>,
    /// The line is no machine's text.
    pub refused: Cell<u64>,
}

impl VerdictCounts {
    pub(crate) fn add(&self, verdict: &Verdict) {
        add_one(match verdict {
            Verdict::Halt { .. } => &self.halt,
            Verdict::Cycler { .. } => &self.cycler,
            Verdict::Translated { .. } => &self.translated,
            Verdict::Backward { .. } => &self.backward,
            Verdict::Undecided(_) => &self.undecided,
        });
    }

    pub(crate) fn add_refusal(&self) {
        add_one(&self.refused);
    }
}

/// The number of verdict lines with each answer, and of other lines.
///
/// A reader or a writer called by the run may look at it. No clause mentions the counts.
#[derive(Default, Drop)]
pub struct AnswerCounts {
    /// The claim holds.
    pub ok: Cell<u64>,
    /// It doesn't.
    pub bad: Cell<u64>,
    /// It needs more than the limits.
    pub over: Cell<u64>,
    /// Nothing is claimed.
    pub open: Cell<u64>,
    /// The line is no verdict line.
    pub unread: Cell<u64>,
}

impl AnswerCounts {
    pub(crate) fn add(&self, answer: Answer) {
        add_one(match answer {
            Answer::Ok => &self.ok,
            Answer::Bad => &self.bad,
            Answer::Over => &self.over,
            Answer::Open => &self.open,
        });
    }

    pub(crate) fn add_unread(&self) {
        add_one(&self.unread);
    }
}

fn add_one(count: &Cell<u64>) {
    count.set(count.get().wrapping_add(1));
}
