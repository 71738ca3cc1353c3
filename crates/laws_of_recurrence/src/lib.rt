//! Repeating runs, their exact start and period, and the transitions they use: laws, as contracts of
//! functions without effect.
#![tactic(auto)]

pub mod laws;
