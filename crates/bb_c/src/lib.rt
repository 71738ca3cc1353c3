//! The engine as calls for other languages: verdicts and answers for whole lists and for single lines,
//! traces, the validation of replies to a list, exact recurrences, and the lines of machines.
//!
//! `include/bb.h` declares them, with the caller's obligations.
#![tactic(auto)]

mod buffer;
mod check_cost;
mod checking;
mod deciding;
pub mod laws;
mod lines;
mod recurrence;
mod reply_validation;
#[cfg(test)]
mod tests;
mod tracing;
