//! Verdicts on machines, and their lines.
//!
//! `verdict` has verdicts with their writer and reader, `claims` laws on them, `records` the records of
//! a side. `checker` has the checker: `checking` answers, the modules beside it replay a pair.
#![tactic(auto)]

pub mod checker;
pub mod claims;
pub mod records;
pub mod verdict;

pub use bb_sim::is_same;
pub use bb_tree::{Path, walk};
pub use checker::answer::Answer;
pub use checker::checking::{Pair, check, check_along, ring_pair};
pub use checker::course::Course;
pub use claims::laws;
pub use verdict::line::{
    LINE_BUFFER, LONGEST, line_into, lines_are_short, refusal_into, verdict_into,
};
pub use verdict::reader::{
    Line, LineContent, read_line, read_line_in_place, read_number, split_at_space,
};
pub use verdict::{Extent, Side, Verdict, Why};
