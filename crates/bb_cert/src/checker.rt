//! The checker of a claim from any source.

pub mod answer;
pub mod checking;
pub mod course;
mod pairs;
mod replay;
mod run;
