//! Runs a machine step by step on any tape, within limits, and counts steps and cells.
//!
//! `runner` makes one step, `simulation` a whole run; `meter` counts.
#![tactic(auto)]

pub mod configurations;
pub mod laws;
pub mod meter;
pub mod runner;
pub mod simulation;

pub use configurations::is_same;
pub use meter::Meter;
pub use runner::{Moved, Runner};
pub use simulation::{Outcome, simulate, simulate_from};
