//! Small Turing machines: their texts, their tables, the limits of a run, and the choice of deciders.
//!
//! The text is bbchallenge's standard text format for Turing machines, in this project's profile.
//!
//! `machine` has tables with their reader and writer, `packed` the form of small ones, `limits` the limits of
//! a run, `plan` the switches of deciders.
#![tactic(auto)]

pub mod entry;
pub mod laws;
pub mod limits;
pub mod machine;
pub mod packed;
pub mod plan;

pub use entry::{Dir, Entry, Next, Step};
pub use limits::{LimitFault, Limits};
pub use machine::{LINE, MAX_STATES, MAX_SYMBOLS, Machine, Refused};
pub use packed::PackedTable;
pub use plan::Plan;
