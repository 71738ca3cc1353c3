//! The tape of a small Turing machine: one trait with laws, and its implementations.
//!
//! `tape` has the trait, `map` and `ring` the implementations; `kernels` work on 32 bytes at a time.
#![tactic(auto)]

mod kernels;
pub mod laws;
pub mod map;
pub mod ring;
pub mod tape;
pub mod widening;
mod window;

pub use map::MapTape;
pub use ring::RingTape;
pub use tape::{MAX_CELLS, MAX_SYMBOL, Memory, Tape, TapeFault};
