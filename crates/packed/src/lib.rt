//! The packed file: a history in as few bits as its fields need, read as a source and written from one.

#![tactic(auto)]

mod bits;
mod fault;
mod header;
mod reading;
mod trips;
mod writing;

pub use fault::{FileFault, WriteRefusal};
pub use header::Header;
pub use reading::{Packed, check};
pub use trips::round_trips;
pub use writing::write;

#[cfg(test)]
mod tests;
