//! Calls in a list, each with its buffer and room for its answer.
use crate::refusal::Refusal;
use crate::state::Judgement;

/// A call on a case.
#[derive(Drop)]
pub enum Call<P> {
    Lift,
    Stipulate(u16, u16),
    Judge(u32),
    /// Show by a preference, into the buffer of the entry.
    Show(P),
}

/// What a call that is not refused answers.
#[derive(Clone, Copy, PartialEq, Eq, Debug)]
pub enum Answer {
    Stipulated,
    /// The two numbers of the stipulation that was lifted.
    Lifted(u16, u16),
    Judged(Judgement),
    /// How many numbers were written.
    Shown(u16),
}

/// A call with a buffer of its own, which show alone writes to, and its answer, once it is made.
#[derive(Drop)]
pub struct Entry<P, B> {
    pub call: Call<P>,
    pub buffer: B,
    pub answer: Option<Result<Answer, Refusal>>,
}
