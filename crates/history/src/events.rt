ghost use Rattle.std.specs.Iterator.{YieldsFirst, item_count};
ghost use Rattle.history.specs.Events.{counted_left, events_left};

use crate::event::Event;
use crate::source::Source;

/// The events of a source, in their order, as long as it has one.
#[derive(Clone, Copy)]
pub struct Events<'a, S> {
    pub(crate) source: &'a S,
    /// How many of them came.
    pub(crate) given: u16,
}

impl<S: Source> Iterator for Events<'_, S> {
    type Item = Event;

    ghost next_gives = { YieldsFirst (events_left S.Source.events) };

    ghost remaining = { item_count (events_left S.Source.events) };

    fn next(&mut self) -> Option<Event> {
        let next = self.given.checked_add(1)?;
        let event = self.source.event(next)?;
        self.given = next;
        Some(event)
    }
}

/// The events of a source, in their order, as many as it said that it has.
#[derive(Clone, Copy)]
pub struct Counted<'a, S> {
    pub(crate) source: &'a S,
    /// How many there are.
    pub(crate) count: u16,
    /// How many of them came.
    pub(crate) given: u16,
}

impl<S: Source> Iterator for Counted<'_, S> {
    type Item = Event;

    ghost next_gives = { YieldsFirst (counted_left S.Source.events) };

    ghost remaining = { item_count (counted_left S.Source.events) };

    fn next(&mut self) -> Option<Event> {
        if self.given >= self.count {
            return None;
        }
        let number = self.given + 1;
        let event = self.source.event(number)?;
        self.given = number;
        Some(event)
    }
}
