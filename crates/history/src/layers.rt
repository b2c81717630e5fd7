ghost use Rattle.std.specs.Prelude.{◌≡◌, ◌++◌, map, take, filter};
ghost use Rattle.history.specs.Few.{few_take, few_kept, few_map};
ghost use Rattle.history.specs.Layers.{of_star, shifted, common};

use crate::event::Event;
use crate::source::Source;

/// The events of one star, in their order, with the season of the source below.
#[derive(Clone, Copy)]
pub struct Pick<S> {
    pub below: S,
    pub star: u8,
}

impl<S> Pick<S> {
    /// Whether this layer keeps the event.
    fn picks(&self, e: &Event) -> bool
        ensures { result ≡ of_star self.now.star e.now }
    {
        e.star == self.star
    }
}

impl<S: Source> Source for Pick<S> {
    ghost season = { λ p. S.Source.season p.below };

    ghost events = { λ p. filter (of_star p.star) (S.Source.events p.below) };

    ghost few = { λ p. few_kept (of_star p.star) (S.Source.events p.below) (S.Source.few p.below) };

    fn season(&self) -> u16 {
        self.below.season()
    }

    fn count(&self) -> u16 {
        self.below.iter_counted().filter(|e| self.picks(e)).count() as u16
    }

    fn event(&self, number: u16) -> Option<Event> {
        let place = number.checked_sub(1)?;
        self.below
            .iter_counted()
            .filter(|e| self.picks(e))
            .nth(place as usize)
    }
}

/// The events below with one number added to each session and another to each revision but 0.
///
/// A session above 255 becomes 255, a revision above 65,535 becomes 65,535; revision 0, the starting
/// entry, stays 0. The season is the one below.
#[derive(Clone, Copy)]
pub struct Offset<S> {
    pub below: S,
    pub sessions: u8,
    pub revisions: u16,
}

impl<S> Offset<S> {
    /// The event as this layer shows it.
    fn shift(&self, e: Event) -> Event
        ensures { result ≡ shifted self.now.sessions self.now.revisions e }
    {
        let session = e.session.saturating_add(self.sessions);
        let revision = if e.revision == 0 {
            0
        } else {
            e.revision.saturating_add(self.revisions)
        };
        Event {
            session,
            revision,
            ..e
        }
    }
}

impl<S: Source> Source for Offset<S> {
    ghost season = { λ o. S.Source.season o.below };

    ghost events = { λ o. map (shifted o.sessions o.revisions) (S.Source.events o.below) };

    ghost few = { λ o. few_map (shifted o.sessions o.revisions) (S.Source.events o.below) (S.Source.few o.below) };

    fn season(&self) -> u16 {
        self.below.season()
    }

    fn count(&self) -> u16 {
        self.below.count()
    }

    fn event(&self, number: u16) -> Option<Event> {
        self.below.event(number).map(|e| self.shift(e))
    }
}

/// The first list followed by the second, cut after 65,535 events.
///
/// The season is that of both where they agree, and otherwise 0.
#[derive(Clone, Copy)]
pub struct Join<L, R> {
    pub first: L,
    pub second: R,
}

impl<L: Source, R: Source> Source for Join<L, R> {
    ghost season = { λ j. common (L.Source.season j.first) (R.Source.season j.second) };

    ghost events = { λ j. take 65535 (L.Source.events j.first ++ R.Source.events j.second) };

    ghost few = { λ j. few_take (L.Source.events j.first ++ R.Source.events j.second) };

    fn season(&self) -> u16 {
        let season = self.first.season();
        if season == self.second.season() {
            season
        } else {
            0
        }
    }

    fn count(&self) -> u16 {
        self.first.count().saturating_add(self.second.count())
    }

    fn event(&self, number: u16) -> Option<Event> {
        let n = self.first.count();
        if number <= n {
            self.first.event(number)
        } else {
            self.second.event(number - n)
        }
    }
}
