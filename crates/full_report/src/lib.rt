//! The printed report on a packed history.

#![tactic(auto)]

mod fault;
mod findings;
mod judged;
mod lines;
mod printing;

pub use fault::Fault;
pub use printing::{report, there_is_one_report};
pub use report::ReportRefusal;

#[cfg(test)]
mod tests;
