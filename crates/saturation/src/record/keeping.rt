//! How the events of a case are recorded.
ghost use Rattle.std.specs.Prelude.{◌≡◌, ℕ, suc, ◌*◌, ◌<◌, ◌≤◌, ◌&&◌, length, ◌==◌};
ghost use Rattle.order.specs.History.{at, count, history_of, kept_by};
ghost use Rattle.order.specs.Opening.{opening, accepted};
ghost use Rattle.sets.specs.Sets.{has};
ghost use Rattle.saturation.specs.Recorded.{history_in};

use super::Recorded;
use arrayvec::ArrayVec;
use history::{Event, Rule};
use sets::EventSet;

impl<const N: usize, const W: usize> Recorded<N, W> {
    /// The record of events, with the pairs that the rule keeps.
    pub fn new<R: Rule>(events: ArrayVec<Event, N>, rule: &R) -> Recorded<N, W>
        requires room { (N ≤ 64 * W) × (W ≤ 1024) }
        requires opens { opening events.items ≡ accepted }
        ensures history { history_in result ≡ history_of events.entry.items (R.Rule.keeps rule.now) }
        ensures given { result.events ≡ events.entry }
    {
        let listed = events.as_slice();
        let mut kept = [EventSet::new(); N];
        for x in 0..listed.len() {
            kept[x] = kept_after(listed, rule, x);
        }
        Recorded { events, kept }
    }

    /// The events of the case.
    pub fn events(&self) -> &[Event]
        ensures { result.now ≡ (history_in self.now).events }
    {
        self.events.as_slice()
    }

    /// The event `x`.
    pub fn event(&self, x: usize) -> Event
        requires { x < count (history_in self.now) }
        ensures { result ≡ at (history_in self.now) (suc x) }
    {
        self.events()[x]
    }

    /// How many events there are.
    pub fn count(&self) -> usize
        ensures { result ≡ count (history_in self.now) }
    {
        self.events.len()
    }
}

/// The events after `x` that have to stay after it.
fn kept_after<R: Rule, const W: usize>(events: &[Event], rule: &R, x: usize) -> EventSet<W>
    requires { (x < length events.now) × (length events.now ≤ 64 * W) }
    ensures { (y : ℕ) → has result y ≡ kept_by (R.Rule.keeps rule.now) events.now (suc x) (suc y) }
{
    let mut row = EventSet::new();
    for y in x + 1..events.len() {
        if keeps_pair(rule, events[x], events[y]) {
            row.insert(y);
        }
    }
    row
}

/// Whether the rule keeps the order of the two events: they are of one session, and it says so.
fn keeps_pair<R: Rule>(rule: &R, earlier: Event, later: Event) -> bool
    ensures { result ≡ (earlier.session == later.session && R.Rule.keeps rule.now earlier.kind earlier.star later.kind later.star) }
{
    earlier.session == later.session && rule.keeps(earlier.access(), later.access())
}
