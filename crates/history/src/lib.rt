//! Events, where they come from, which of them keep their order, and which is preferred.

#![tactic(auto)]

mod event;
mod events;
mod layers;
mod preference;
mod rule;
mod source;

pub use either::Either;
pub use event::{Access, Event, READ, WRITE};
pub use events::{Counted, Events};
pub use layers::{Join, Offset, Pick};
pub use preference::{ByNumber, BySession, ByStar, Candidate, Preference};
pub use rule::{Lag, Rule, Star, Strict};
pub use source::{Source, Table};

#[cfg(test)]
mod tests;
