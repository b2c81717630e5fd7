//! All that the pairs that stand force, clashes too.

#![tactic(auto)]

mod answers;
mod reach;

pub use answers::{clash, clash_by_rows, forced, forced_by_rows};
pub use reach::Closure;
