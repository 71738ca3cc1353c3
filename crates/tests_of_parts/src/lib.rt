//! Tests of the lower libraries: machines, tapes and runs.
#![tactic(auto)]

#[cfg(test)]
mod machine;
#[cfg(test)]
mod simulation;
#[cfg(test)]
mod tape;
