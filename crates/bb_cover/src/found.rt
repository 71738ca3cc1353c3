//! The result of a walk along a list.
use bb_cert::Answer;

/// The reason for stopping at a line.
#[derive(Clone, Copy, Debug, PartialEq, Eq)]
pub enum Why {
    /// It is no line of a machine and a verdict, and in a skeleton no line of a shard.
    Unread,
    /// Its machine isn't the next one; for the first line, the machine at which the walk begins.
    NotNext,
    /// The checker's answer to its claim is this one, `bad` or `over`.
    Refused(Answer),
    /// The lines up to it, with those of the shards, are 2^64 or more.
    TooMany,
    /// The list ends, and machines are still to be visited.
    TooSoon,
    /// All machines were visited before it.
    Beyond,
}

/// The line at which the walk stops.
#[derive(Clone, Copy, Debug, PartialEq, Eq)]
pub struct Stop {
    /// The line's number in the list itself, from 1; one past the last at the end of the list. It saturates
    /// at 2^64 - 1.
    pub line: u64,
    pub why: Why,
}

/// The result of a walk along a list.
#[derive(Clone, Copy, Debug, PartialEq, Eq)]
pub enum Found {
    /// The list covers the machines of so many states and symbols; below a machine of that size, the list is
    /// its shard.
    Covers { states: u8, symbols: u8 },
    /// The list isn't complete.
    Stops(Stop),
}
