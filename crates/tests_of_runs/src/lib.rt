//! Tests of the engine of lines, of whole lists, of traces and of recurrences, from bytes to bytes.
#![tactic(auto)]

#[cfg(test)]
mod broken_streams;
#[cfg(test)]
mod checked_lists;
#[cfg(test)]
mod counted_refusals;
#[cfg(test)]
mod counted_writes;
#[cfg(test)]
mod counts;
#[cfg(test)]
mod decided_lists;
#[cfg(test)]
mod each_plan;
#[cfg(test)]
mod failed_allocations;
#[cfg(test)]
mod line_engine;
#[cfg(test)]
mod recurrences;
#[cfg(test)]
mod support;
#[cfg(test)]
mod traces;
#[cfg(test)]
mod validations;
#[cfg(test)]
mod weak_keys;
