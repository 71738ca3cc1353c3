//! Exact recurrence of machines that never halt: the first step from which on a run repeats, its period, its
//! shift, and the last use of each state and entry; and the replies to a list.
//!
//! `recurrences` replies to a list, `finder` finds a recurrence. `recurrence` has the pair of a run,
//! and its start; `history` is for recorded runs, `lockstep` and `period` for longer ones; `uses` has
//! the last uses.
#![tactic(auto)]

mod counts;
mod factors;
pub mod finder;
mod history;
pub mod laws;
mod lockstep;
mod period;
pub mod recurrence;
mod recurrences;
mod rings;
mod text;
pub mod uses;
pub mod verdict;

pub use counts::RecurrenceCounts;
pub use finder::{Finder, Tapes};
pub use recurrence::{KnownPair, Recurrence};
pub use recurrences::run_recurrence;
pub use rings::ring_finder;
pub use uses::{LastUse, LastUses};
pub use verdict::Finding;
