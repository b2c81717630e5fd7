ghost use Rattle.std.specs.Prelude.{◌≡◌, ℕ, Bool, List};
ghost use Rattle.history.specs.declared.event.Event.{Event};
ghost use Rattle.history.specs.Preferences.{Lawful, by_number, by_star, by_session};
ghost use Rattle.either.specs.Either.{either};
ghost use Rattle.history.specs.Lawful.{by_number_lawful, by_star_lawful, by_session_lawful, either_lawful};

use crate::event::Event;
use either::{Either, for_both};

/// An event that an order may place next, and its number.
#[derive(Clone, Copy, PartialEq, Eq, Debug)]
pub struct Candidate {
    pub number: u16,
    pub event: Event,
}

/// Which of two events comes first where an order leaves the choice.
///
/// An implementation says by `prefers` whether the first event, given by number and record, is
/// preferred to the second, and shows by `lawful` that this puts the events of every list in a line.
pub trait Preference {
    ghost prefers: { Self → ℕ → Event → ℕ → Event → Bool };

    ghost lawful: { (s : Self) (es : List Event) → Lawful (prefers s) es };

    /// Whether the first event is preferred to the second.
    fn prefers(&self, first: Candidate, second: Candidate) -> bool
        ensures { result ≡ prefers self.now first.number first.event second.number second.event };
}

/// The lower number is preferred.
#[derive(Clone, Copy)]
pub struct ByNumber;

impl Preference for ByNumber {
    ghost prefers = { λ _. by_number };

    ghost lawful = { λ _. by_number_lawful };

    fn prefers(&self, first: Candidate, second: Candidate) -> bool {
        first.number < second.number
    }
}

/// The lower star is preferred, then the lower number.
#[derive(Clone, Copy)]
pub struct ByStar;

impl Preference for ByStar {
    ghost prefers = { λ _. by_star };

    ghost lawful = { λ _. by_star_lawful };

    fn prefers(&self, first: Candidate, second: Candidate) -> bool {
        (first.event.star, first.number) < (second.event.star, second.number)
    }
}

// As `ByStar`, with another field: a trait for the field would be longer than the two.
/// The lower session is preferred, then the lower number.
#[derive(Clone, Copy)]
pub struct BySession;

impl Preference for BySession {
    ghost prefers = { λ _. by_session };

    ghost lawful = { λ _. by_session_lawful };

    fn prefers(&self, first: Candidate, second: Candidate) -> bool {
        (first.event.session, first.number) < (second.event.session, second.number)
    }
}

/// One of two preferences, so that one type serves where a program chooses between them.
impl<P: Preference, Q: Preference> Preference for Either<P, Q> {
    ghost prefers = { either P.Preference.prefers Q.Preference.prefers };

    ghost lawful = { either_lawful P.Preference.prefers Q.Preference.prefers P.Preference.lawful Q.Preference.lawful };

    fn prefers(&self, first: Candidate, second: Candidate) -> bool {
        for_both!(self, preference => preference.prefers(first, second))
    }
}
