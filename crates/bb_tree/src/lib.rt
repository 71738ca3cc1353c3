//! The backward tree of configurations before a halt, and the walk through it.
//!
//! `traversal` is the walk, `path` has its frames, `rules` the entries by their targets, `endless`
//! trees without an end.
#![tactic(auto)]

mod endless;
pub mod path;
mod rules;
pub mod traversal;

pub use path::Path;
pub use traversal::walk;
