//! The common part of the programs: their arguments, streams that keep their last error, progress on a
//! terminal, and the messages for failures.
#![tactic(auto)]

pub mod arguments;
pub mod failures;
pub mod messages;
pub mod progress;
pub mod streams;
