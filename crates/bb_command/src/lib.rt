//! The program's command line: the work, its limits, and advice on refused limits.
//!
//! `command` has `ask`, `options` the options of all programs, `advice` accepted values.
#![tactic(auto)]

pub mod advice;
pub mod command;
pub mod options;

pub use advice::Advice;
pub use command::{Asked, Numbers, Stop, Work, ask, parse_numbers};
