//! The content of the progress line, and its conditions.

use bb_recurrence::RecurrenceCounts;
use bb_terminal::failures::is_output_kept;
use std::fmt;
use std::fmt::{Display, Formatter};
use std::io::IsTerminal;

/// How many lines have a reply so far.
#[derive(Clone, Copy)]
pub struct LineCounts<'a> {
    counts: &'a RecurrenceCounts,
}

impl<'a> LineCounts<'a> {
    /// The counts to show. None if standard error is no terminal, and if standard output is neither a file
    /// nor the null device.
    pub fn of(rt: &HostRuntime, counts: &'a RecurrenceCounts) -> Option<LineCounts<'a>> {
        if !rt.stderr().is_terminal() || !is_output_kept(rt) {
            return None;
        }
        Some(LineCounts { counts })
    }
}

impl Display for LineCounts<'_> {
    fn fmt<W: fmt::Write>(&self, f: &mut Formatter<W>) -> fmt::Result {
        let counts = self.counts;
        write!(
            f,
            "{} recur, {} quasihalt, {} open",
            counts.recurs.get(),
            counts.quasihalts.get(),
            counts.open.get()
        )?;
        let refused = counts
            .bad
            .get()
            .saturating_add(counts.over.get())
            .saturating_add(counts.unread.get());
        if refused > 0 {
            write!(f, ", {refused} bad, over or unread")?;
        }
        Ok(())
    }
}
