//! Answers the lines of an input in turn, each by one line of output.
//!
//! `lines` is the engine, `sink` one without output; `responder` has the trait for replies, `watched`
//! streams that keep whether a call failed.
#![tactic(auto)]

pub mod fault;
pub mod laws;
pub mod lines;
pub mod output;
pub mod responder;
pub mod sink;
pub mod watched;
