//! Decides a machine within limits: the verdict defined for it, and its cost.
//!
//! `decision` has `decide`, `single_pass_decision` has `decide_in_single_pass`; both search in `cycle`,
//! `translation` and `reasoning`, the backward search. `single_pass` is the single-pass run, with the
//! parts `register_pass`, `block_pass` and `sprint`.
#![tactic(auto)]

pub mod bench;
mod block_pass;
pub mod cycle;
pub mod decision;
mod fingerprint;
pub mod keys;
pub mod laws;
pub mod reasoning;
mod record_search;
mod register_handover;
mod register_pass;
mod register_records;
mod search_result;
mod single_pass;
pub mod single_pass_decision;
mod sprint;
pub mod translation;

pub use bb_machine::Plan;
pub use bench::Bench;
pub use cycle::cyclers;
pub use decision::decide;
pub use keys::{FingerprintKeys, SpreadKeys};
pub use reasoning::backward;
pub use single_pass_decision::decide_in_single_pass;
pub use translation::translated;
