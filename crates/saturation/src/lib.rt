//! A relation between events that takes its changes back; the events of a case, with the pairs that are kept; and
//! what the rules of a history force.

#![tactic(auto)]

mod record;
mod relation;
mod saturate;

pub use record::{Recorded, Stipulated};
pub use relation::{Cycle, Mark, Relation};
pub use saturate::{Facts, Ties};
