//! Rows, tapes, streams and calls shared by the tests.

pub(crate) mod checking;
pub(crate) mod counting_tape;
pub(crate) mod deciding;
pub(crate) mod engine;
pub(crate) mod rows;
pub(crate) mod streams;
pub(crate) mod tracing;
