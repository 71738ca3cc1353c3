//! Runs of machines of two symbols and at most seven states, in registers while they stay within 64 cells:
//! the bits of one number.
//!
//! `registers` has a configuration, `run` one step and its ends. `blocks` runs on a tape by blocks, and
//! `handover` moves a run to a tape.
#![tactic(auto)]

pub mod blocks;
pub mod cells;
pub mod handover;
pub mod registers;
pub mod run;
pub mod simulation;

pub use blocks::{Barrier, BlockRun};
pub use cells::BitCells;
pub use registers::Registers;
pub use run::{RegisterMove, RegisterRun};
pub use simulation::simulate_in_registers;
