//! The events of a source, copied, and the first of them that fails a check.

#![tactic(auto)]

mod checks;
mod copying;
mod fault;

pub use copying::check_source;
pub use fault::HistoryFault;
