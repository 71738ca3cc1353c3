//! The walk that a list has to be.
use crate::text::Text;
use bb_machine::{Limits, Machine};

/// The lines that a list may have.
#[derive(Clone, Copy, Debug, PartialEq, Eq)]
pub enum Form {
    /// Each line has a verdict.
    Verdicts,
    /// A line may stand for a shard, and has its counts in place of a verdict.
    Skeleton,
}

/// The walk that a list has to be, and the limits of its claims.
#[derive(Drop)]
pub struct Task {
    /// The most steps, cells, levels and nodes of a claim.
    pub limits: Limits,
    /// The machine at which the walk begins. If none, it is a machine without entries, of any size.
    pub below: Option<Machine>,
    /// The lines that the list may have.
    pub form: Form,
    /// The texts of machines that are assumed never to halt. Their undecided lines are counted apart.
    pub assumed: Vec<Text>,
    /// The text of the machine whose line is sought, if any.
    pub sought: Option<Text>,
}
