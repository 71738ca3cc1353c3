//! Checks whether a list of verdicts settles every machine of a size: its lines are those of a walk in depth
//! through all of them, each with a claim confirmed by the checker. A list may be a shard, the walk below one
//! machine, or a skeleton, with lines that stand for shards.
//!
//! `list` has `run_cover`, `walk` the machines to visit, `content` a line's verdict or shard. `line`
//! has `line_of`, and `lines` replies to a list.
#![tactic(auto)]

mod asked;
mod claim;
mod content;
mod counts;
mod filled;
mod found;
mod halt;
pub mod laws;
mod line;
mod line_text;
mod lines;
mod list;
mod naming;
mod table;
mod task;
mod text;
mod undefined;
mod used;
mod walk;

pub use content::ShardCounts;
pub use counts::Counts;
pub use found::{Found, Stop, Why};
pub use line::{How, Line, LineHalt, line_of};
pub use lines::run_lines;
pub use list::{Cover, run_cover};
pub use naming::{Names, Naming};
pub use task::{Form, Task};
pub use text::Text;
