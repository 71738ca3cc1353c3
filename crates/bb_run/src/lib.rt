//! Engines over readers and writers: verdicts on the machines of a list, answers to verdict lines, and the
//! trace of one machine; and the validation of replies to a list.
//!
//! `deciding`, `checking`, `tracing` and `reply_validation` have a call each; `decider` is the
//! responder of both ways to decide.
#![tactic(auto)]

mod checking;
mod cost;
mod counts;
mod decider;
mod deciding;
pub mod laws;
mod reply_validation;
mod rings;
mod summary;
mod tally;
mod tracing;
mod words;

pub use checking::{run_check, run_check_with_counts};
pub use cost::{CheckCost, LineCost, cost_of_check};
pub use counts::{AnswerCounts, VerdictCounts};
pub use deciding::{run_decide, run_decide_in_single_pass};
pub use reply_validation::{KindCounts, Mismatch, ReplyCheck, ReplyKind, validate_replies};
pub use rings::ring_bench;
pub use summary::Summary;
pub use tracing::{run_sampled_trace, run_trace};
