ghost use Rattle.std.specs.Prelude.{◌≡◌, ℕ, ◌≤◌, List, length, take};
ghost use Rattle.history.specs.declared.event.Event.{Event};
ghost use Rattle.history.specs.Lists.{numbered};
ghost use Rattle.history.specs.Events.{counted_left, events_left};
ghost use Rattle.either.specs.Either.{either};
ghost use Rattle.history.specs.Few.{few_take, few_either};

use crate::event::Event;
use crate::events::{Counted, Events};
use either::{Either, for_both};

/// A season and a list of at most 65,535 events, numbered from 1, that can be asked for.
///
/// An implementation says by `season` and `events` what it means, shows by `few` that the list is
/// not too long, and shows of each answer that it is read off that meaning. A question changes
/// nothing, so that the same question has the same answer.
pub trait Source {
    ghost season: { Self → ℕ };

    ghost events: { Self → List Event };

    ghost few: { (s : Self) → length (events s) ≤ 65535 };

    /// The season.
    fn season(&self) -> u16
        ensures { result ≡ season self.now };

    /// How many events there are.
    fn count(&self) -> u16
        ensures { result ≡ length (events self.now) };

    /// The event with a number; none for 0 and above the count.
    fn event(&self, number: u16) -> Option<Event>
        ensures { result ≡ numbered (events self.now) number };

    /// The events, in their order. It asks for one event after another, until there is none.
    final fn iter(&self) -> Events<'_, Self>
    where
        Self: Sized,
        ensures { events_left events result ≡ events self.now }
    {
        let given = 0;
        Events {
            source: self,
            given,
        }
    }

    /// The events, in their order. It asks for the count once, and then for one event after another.
    final fn iter_counted(&self) -> Counted<'_, Self>
    where
        Self: Sized,
        ensures { counted_left events result ≡ events self.now }
    {
        Counted {
            source: self,
            count: self.count(),
            given: 0,
        }
    }
}

/// A table of event records with a season; it means its first 65,535 records.
#[derive(Clone, Copy)]
pub struct Table<'a> {
    pub season: u16,
    pub events: &'a [Event],
}

impl Source for Table<'_> {
    ghost season = { λ t. t.season };

    ghost events = { λ t. take 65535 t.events.now };

    ghost few = { λ t. few_take t.events.now };

    fn season(&self) -> u16 {
        self.season
    }

    fn count(&self) -> u16 {
        self.events.len().min(65535) as u16
    }

    fn event(&self, number: u16) -> Option<Event> {
        let index = number.checked_sub(1)?;
        self.events.get(index as usize).copied()
    }
}

/// A source that is lent is a source.
impl<S: Source> Source for &S {
    ghost season = { λ s. S.Source.season s.now };

    ghost events = { λ s. S.Source.events s.now };

    ghost few = { λ s. S.Source.few s.now };

    fn season(&self) -> u16 {
        (**self).season()
    }

    fn count(&self) -> u16 {
        (**self).count()
    }

    fn event(&self, number: u16) -> Option<Event> {
        (**self).event(number)
    }
}

/// One of two sources, so that one type serves where a program chooses between them.
impl<P: Source, Q: Source> Source for Either<P, Q> {
    ghost season = { either P.Source.season Q.Source.season };

    ghost events = { either P.Source.events Q.Source.events };

    ghost few = { few_either P.Source.events Q.Source.events P.Source.few Q.Source.few };

    fn season(&self) -> u16 {
        for_both!(self, source => source.season())
    }

    fn count(&self) -> u16 {
        for_both!(self, source => source.count())
    }

    fn event(&self, number: u16) -> Option<Event> {
        for_both!(self, source => source.event(number))
    }
}
