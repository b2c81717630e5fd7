//! The printed report on a packed history.

#![tactic(auto)]

mod fault;
mod printing;

pub use fault::{Fault, fault_line};
pub use printing::{ReportRefusal, header_line, report};

#[cfg(test)]
mod tests;
