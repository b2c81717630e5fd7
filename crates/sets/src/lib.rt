//! Sets of events, and tables of such sets that take their changes back.

#![tactic(auto)]

mod set;
mod table;

pub use set::EventSet;
pub use table::Table;
