//! Tests of verdicts: their lines, the checker of their claims, and the deciders.
#![tactic(auto)]

#[cfg(test)]
mod check;
#[cfg(test)]
mod deciding;
#[cfg(test)]
mod verdict_lines;
#[cfg(test)]
mod walk;
