//! Verdicts and later steps, other machines and other starts: laws, as contracts of functions that do
//! nothing.
#![tactic(auto)]

pub mod laws;
