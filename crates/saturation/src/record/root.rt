//! The relation at the root of a search: what a record and the pairs that stand force.
ghost use Rattle.std.specs.Prelude.{◌≡◌, ℕ, ◌<◌, true, MatchResult, is_ok};
ghost use Rattle.order.specs.History.{count};
ghost use Rattle.sets.specs.Sets.{has};
ghost use Rattle.saturation.specs.Relations.{Kept};
ghost use Rattle.saturation.specs.Recorded.{history_in};
ghost use Rattle.saturation.specs.Rooting.{leads, leads_in, Outright, RowOf, Standing, PairsUpTo, Gained, Blocked, Bare, Rooted};

use super::{Recorded, Stipulated};
use crate::relation::{Cycle, Relation};
use crate::saturate::Facts;
use history::{Event, READ, WRITE};
use sets::EventSet;

impl<const N: usize, const W: usize, const T: usize> Relation<N, W, T> {
    /// Puts all that the record and the pairs that stand give, by number, into a relation that has no pair yet, with
    /// all that the rules force. Where that closes a cycle it stops there.
    pub fn root(&mut self, given: Stipulated<'_, N, W>, facts: &Facts<N, W>) -> Result<(), Cycle>
        requires events { (count (history_in given.record.now) ≡ self.old.count) × (facts.now.count ≡ self.old.count) }
        requires bare { Bare self.old }
        ensures { Rooted facts.now (history_in given.entry.record.now) given.entry.pairs.now self.old self.new (is_ok result) }
    {
        self.link_events(given.record)?;
        self.link_pairs(given.pairs)?;
        self.saturate(facts)
    }

    /// Links each event to those that the record puts after it outright.
    fn link_events(&mut self, case: &Recorded<N, W>) -> Result<(), Cycle>
        requires { count (history_in case.now) ≡ self.old.count }
        ensures kept { Kept self.old self.new }
        ensures pairs { MatchResult result (λ _. Gained (Outright case.now (count (history_in case.now))) self.old self.new) (λ _. Blocked (Outright case.now (count (history_in case.now))) self.old) }
    {
        // x is a number in rows and sets, and no element of a list.
        for x in 0..case.count() {
            self.link_all(x, &case.followers(x))?;
        }
        Ok(())
    }

    /// Links the event `x` to each of the events that are listed.
    fn link_all(&mut self, x: usize, listed: &EventSet<W>) -> Result<(), Cycle>
        requires { (x < self.old.count) × ((y : ℕ) → has listed.now y ≡ true → y < self.old.count) }
        ensures kept { Kept self.old self.new }
        ensures pairs { MatchResult result (λ _. Gained (RowOf x listed.now) self.old self.new) (λ _. Blocked (RowOf x listed.now) self.old) }
    {
        let mut rest = *listed;
        while let Some(y) = rest.pop() {
            self.link(x, y)?;
        }
        Ok(())
    }

    /// Links the pairs that stand.
    fn link_pairs(&mut self, pairs: &[(u16, u16)]) -> Result<(), Cycle>
        requires { PairsUpTo self.old.count pairs.now }
        ensures kept { Kept self.old self.new }
        ensures pairs { MatchResult result (λ _. Gained (Standing pairs.now) self.old self.new) (λ _. Blocked (Standing pairs.now) self.old) }
    {
        for &(a, b) in pairs {
            self.link(a as usize - 1, b as usize - 1)?;
        }
        Ok(())
    }
}

impl<const N: usize, const W: usize> Recorded<N, W> {
    /// The events that stand after `x` outright: they are kept after it, or take from it, or write what it found
    /// unwritten.
    pub fn followers(&self, x: usize) -> EventSet<W>
        requires { x < count (history_in self.now) }
        ensures { (y : ℕ) → has result y ≡ leads_in self.now x y }
    {
        let first = self.event(x);
        let mut followers = self.kept[x];
        for (y, second) in self.events().iter().enumerate() {
            if comes_first(first, *second) {
                followers.insert(y);
            }
        }
        followers
    }
}

/// Whether the first event comes before the second in every order: the second reads what the first writes, or the
/// first found the starting entry of the star that the second writes.
fn comes_first(first: Event, second: Event) -> bool
    ensures { result ≡ leads first second }
{
    first.star == second.star
        && match (first.kind, second.kind) {
            (WRITE, READ) => first.revision == second.revision,
            (READ, WRITE) => first.revision == 0,
            _ => false,
        }
}
