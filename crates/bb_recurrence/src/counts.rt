//! The counts of a list so far, for progress reports.
use bb_cert::Answer;
use std::cell::Cell;

/// The number of verdict lines with each reply, and of other lines.
///
/// A reader or a writer called by the run may look at it. No clause mentions the counts.
#[derive(Default, Drop)]
pub struct RecurrenceCounts {
    /// The pair is confirmed, and its recurrence is printed.
    pub recurs: Cell<u64>,
    /// The same, and the machine quasihalts.
    pub quasihalts: Cell<u64>,
    /// The claim of a pair doesn't hold.
    pub bad: Cell<u64>,
    /// A pair needs more than the limits.
    pub over: Cell<u64>,
    /// No pair is claimed.
    pub open: Cell<u64>,
    /// The line is no verdict line.
    pub unread: Cell<u64>,
}

impl RecurrenceCounts {
    pub(crate) fn add_recurrence(&self, quasihalts: bool) {
        add_one(&self.recurs);
        if quasihalts {
            add_one(&self.quasihalts);
        }
    }

    pub(crate) fn add_answer(&self, answer: Answer) {
        add_one(match answer {
            Answer::Ok => &self.recurs,
            Answer::Bad => &self.bad,
            Answer::Over => &self.over,
            Answer::Open => &self.open,
        });
    }

    pub(crate) fn add_unread(&self) {
        add_one(&self.unread);
    }
}

fn add_one(count: &Cell<u64>) {
    count.set(count.get().wrapping_add(1));
}
