//! A case, the calls on it, and runs of calls.

#![tactic(auto)]

mod buffer;
mod calls;
mod case;
mod entry;
mod filling;
mod judging;
mod looking;
mod refusal;
mod running;
mod showing;
mod state;

pub use buffer::Buffer;
pub use case::Case;
pub use entry::{Answer, Call, Entry};
pub use refusal::Refusal;
pub use state::{Judgement, Verdict};

#[cfg(test)]
mod tests;
