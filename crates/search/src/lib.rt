//! The search for a serial order, which can be stopped and gone on with.

#![tactic(auto)]

mod tree;
mod walk;

pub use tree::Search;
pub use walk::{Choice, Progress, Walk};
