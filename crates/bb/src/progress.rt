//! The content of the progress line of `bb`, and its conditions.
ghost use Rattle.std.specs.Prelude.{◌≡◌, IfSome, Some};
ghost use Rattle.bb.specs.Progress.{counts_claims};

use bb_command::Work;
use bb_run::{AnswerCounts, VerdictCounts};
use bb_terminal::failures::is_output_kept;
use std::fmt;
use std::fmt::{Display, Formatter};
use std::io::IsTerminal;

/// The counts of a list so far: of machines, and of claims.
#[derive(Default, Drop)]
pub struct Counts {
    pub verdicts: VerdictCounts,
    pub answers: AnswerCounts,
}

/// The counts of each kind, without zeros.
#[derive(Clone, Copy)]
pub struct CountsByKind<'a> {
    counts: &'a Counts,
    /// Whether the list is of claims; else it is of machines.
    is_check: bool,
}

impl<'a> CountsByKind<'a> {
    /// The counts to show during this work. None for a trace, if standard error is no terminal, and if
    /// standard output is neither a file nor the null device.
    pub fn of(rt: &HostRuntime, work: &Work, counts: &'a Counts) -> Option<CountsByKind<'a>>
        ensures { IfSome result (λ shown. counts_claims work.now ≡ Some shown.is_check) }
    {
        let is_check = match work {
            Work::Decide(_) => false,
            Work::Check => true,
            Work::Trace(_) => return None,
        };
        if !rt.stderr().is_terminal() || !is_output_kept(rt) {
            return None;
        }
        Some(CountsByKind { counts, is_check })
    }
}

impl Display for CountsByKind<'_> {
    fn fmt<W: fmt::Write>(&self, f: &mut Formatter<W>) -> fmt::Result {
        if self.is_check {
            let answers = &self.counts.answers;
            return write_kinds(
                f,
                &[
                    ("ok", answers.ok.get()),
                    ("bad", answers.bad.get()),
                    ("over", answers.over.get()),
                    ("open", answers.open.get()),
                    ("unread", answers.unread.get()),
                ],
            );
        }
        let verdicts = &self.counts.verdicts;
        write_kinds(
            f,
            &[
                ("halt", verdicts.halt.get()),
                ("cycler", verdicts.cycler.get()),
                ("transl", verdicts.translated.get()),
                ("back", verdicts.backward.get()),
                ("undec", verdicts.undecided.get()),
                ("ref", verdicts.refused.get()),
            ],
        )
    }
}

/// Writes the number of lines of each kind, without zeros.
fn write_kinds<W: fmt::Write>(f: &mut Formatter<W>, kinds: &[(&'static str, u64)]) -> fmt::Result {
    let mut between = "";
    for (name, count) in kinds {
        if *count > 0 {
            let (number, unit) = shorten(*count);
            write!(f, "{between}{number}{unit} {name}")?;
            between = ", ";
        }
    }
    Ok(())
}

/// A count of at most ten digits in at most five columns: more than five digits in thousands or millions,
/// rounded down.
fn shorten(count: u64) -> (u64, &'static str) {
    if count < 100_000 {
        (count, "")
    } else if count < 10_000_000 {
        (count / 1_000, "k")
    } else {
        (count / 1_000_000, "M")
    }
}
