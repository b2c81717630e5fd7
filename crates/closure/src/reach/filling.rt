//! How pairs that are given go into a closure.
ghost use Rattle.std.specs.Prelude.{◌≡◌, ℕ, ◌<◌, true};
ghost use Rattle.sets.specs.Sets.{has};
ghost use Rattle.saturation.specs.Ties.{takers_of};
ghost use Rattle.saturation.specs.Recorded.{history_in};
ghost use Rattle.order.specs.History.{count};
ghost use Rattle.saturation.specs.Rooting.{PairsUpTo};
ghost use Rattle.closure.specs.Closures.{earlier, Raised, RowsBelow, HasRow, HasRows, HasEvents, HasPairs};

use super::Closure;
use saturation::{Facts, Recorded};
use sets::EventSet;

impl<const N: usize, const W: usize> Closure<N, W> {
    /// Puts `x` before each of the events listed.
    fn link_row(&mut self, x: usize, row: &EventSet<W>)
        requires inside { x < self.old.count }
        requires listed { (y : ℕ) → has row.now y ≡ true → y < self.old.count }
        ensures linked { HasRow x row.now (earlier self.new) }
        ensures raised { Raised (HasRow x row.now) self.old self.new }
    {
        let mut rest = *row;
        while let Some(y) = rest.pop() {
            self.link(x, y);
        }
    }

    /// Puts each event before all events of its row.
    pub fn link_rows(&mut self, rows: &[EventSet<W>; N])
        requires { RowsBelow self.old.count rows.now }
        ensures linked { HasRows self.old.count rows.now (earlier self.new) }
        ensures raised { Raised (HasRows self.old.count rows.now) self.old self.new }
    {
        // Only the rows of events are linked: N may be more than there are.
        for x in 0..self.count {
            self.link_row(x, &rows[x]);
        }
    }

    /// Puts each write before the reads that take from it.
    pub(crate) fn link_takers(&mut self, facts: &Facts<N, W>)
        requires { facts.now.count ≡ self.old.count }
        ensures linked { HasRows self.old.count (takers_of facts.now.ties) (earlier self.new) }
        ensures raised { Raised (HasRows self.old.count (takers_of facts.now.ties)) self.old self.new }
    {
        // w is an event, and no element of a list: the facts lend what they say of one event.
        for w in 0..self.count {
            self.link_row(w, &facts.ties(w).takers);
        }
    }

    /// Puts each event before those that the record puts after it outright.
    pub fn link_events(&mut self, case: &Recorded<N, W>)
        requires { count (history_in case.now) ≡ self.old.count }
        ensures linked { HasEvents case.now (earlier self.new) }
        ensures raised { Raised (HasEvents case.now) self.old self.new }
    {
        // x is an event, and no element of a list: its row is made from the whole record.
        for x in 0..self.count {
            self.link_row(x, &case.followers(x));
        }
    }

    /// Puts the first event of each pair before the second; the pairs have the events by number, from 1.
    pub fn link_pairs(&mut self, pairs: &[(u16, u16)])
        requires { PairsUpTo self.old.count pairs.now }
        ensures linked { HasPairs pairs.now (earlier self.new) }
        ensures raised { Raised (HasPairs pairs.now) self.old self.new }
    {
        for &(a, b) in pairs {
            self.link(a as usize - 1, b as usize - 1);
        }
    }
}
