//! The summary of a list.
use bb_sim::Meter;

/// The summary of a run.
#[derive(Clone, Copy, Debug, PartialEq, Eq)]
pub struct Summary {
    /// False after a refused machine, an answer `bad`, `over` or `unread`, or a trace cut by the limit of
    /// cells.
    pub clean: bool,
    /// The greatest of each count over the machines or claims read; all 0 for a trace. The run's `ends` says
    /// which of them are exact and which are bounded.
    pub peak: Meter,
}
