ghost use Rattle.std.specs.Prelude.{◌≡◌, ℕ, ◌<◌, ◌≤◌, Bool, length};
ghost use Rattle.std.specs.List.{list_any};
ghost use Rattle.history.specs.declared.event.Event.{Event};
ghost use Rattle.order.specs.Opening.{writes_same, keeps_limits, writes_revision, writes_first, reads_written};
ghost use Rattle.opening.specs.Checks.{FirstFails, AnswersAs, MakesFault};

use crate::fault::HistoryFault;
use history::{Event, READ, WRITE};

/// Whether `w` is a write of the star and the revision of `e`.
fn writes_same(e: Event, w: Event) -> bool
    ensures { result ≡ writes_same e w }
{
    // The star first: measured, an opening is faster, it seems since the machine foresees the star and not the kind.
    w.star == e.star && w.revision == e.revision && w.kind == WRITE
}

/// Whether one of the events is a write of the star and the revision of `e`.
fn has_write(events: &[Event], e: Event) -> bool
    ensures { result ≡ list_any (writes_same e) events.now }
{
    events.iter().any(|w| writes_same(e, *w))
}

/// At most 256 events, to be checked.
#[derive(Clone, Copy)]
pub(crate) struct Unchecked<'a> {
    pub(crate) events: &'a [Event],
    ghost few: { length events.now ≤ 256 },
}

impl Unchecked<'_> {
    /// Refuses the first event that does not pass a test, which is given the index of an event and the event.
    fn check<P, F>(&self, passes: P, fault: F) -> Result<(), HistoryFault>
    where
        P: Fn(usize, Event) -> bool,
        F: Fn(u16) -> HistoryFault,
        requires tests { (i : ℕ) (e : Event) → i < length self.now.events.now → P.pre passes i e }
        requires makes { F.IsAlwaysCallable fault }
        ensures { (number : ℕ) (test : ℕ → Bool) → AnswersAs (P.post passes) self.now.events.now test → MakesFault (F.post fault) number → FirstFails number test (length self.now.events.now) result }
    {
        for (i, e) in self.events.iter().enumerate() {
            if !passes(i, *e) {
                return Err(fault(i as u16 + 1));
            }
        }
        Ok(())
    }

    /// Every event keeps the limits of a case.
    pub(crate) fn check_limits(&self) -> Result<(), HistoryFault>
        ensures { FirstFails 12 (keeps_limits self.now.events.now) (length self.now.events.now) result }
    {
        self.check(|_, e| e.fits(), HistoryFault::OutOfLimits)
    }

    /// Every write has a revision other than 0.
    pub(crate) fn check_revisions(&self) -> Result<(), HistoryFault>
        ensures { FirstFails 13 (writes_revision self.now.events.now) (length self.now.events.now) result }
    {
        self.check(
            |_, e| e.kind != WRITE || e.revision != 0,
            HistoryFault::WriteOfZero,
        )
    }

    /// No write has the star and the revision of an earlier one.
    pub(crate) fn check_writes(&self) -> Result<(), HistoryFault>
        ensures { FirstFails 14 (writes_first self.now.events.now) (length self.now.events.now) result }
    {
        let events = self.events;
        self.check(
            |i, e| e.kind != WRITE || !has_write(&events[..i], e),
            HistoryFault::WrittenTwice,
        )
    }

    /// Every read of a revision other than 0 has a write that carries it, earlier or later.
    pub(crate) fn check_reads(&self) -> Result<(), HistoryFault>
        ensures { FirstFails 15 (reads_written self.now.events.now) (length self.now.events.now) result }
    {
        let events = self.events;
        self.check(
            |_, e| e.kind != READ || e.revision == 0 || has_write(events, e),
            HistoryFault::NeverWritten,
        )
    }
}
