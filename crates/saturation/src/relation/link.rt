//! What a relation has, and how a pair is added.
ghost use Rattle.std.specs.Prelude.{◌≡◌, ℕ, ◌<◌, ◌≤◌, Bool, true, false, not, ◌&&◌, ◌||◌, length, MatchOption, MatchResult};
ghost use Rattle.sets.specs.Sets.{has};
ghost use Rattle.sets.specs.Rows.{in_row, in_rows};
ghost use Rattle.saturation.specs.Orders.{free, Roomy};
ghost use Rattle.saturation.specs.Relations.{earlier, waits, Idle, Linked, Refused, Spans};

use super::{Cycle, Relation, Span};
use sets::{EventSet, Table};

impl<const N: usize, const W: usize, const T: usize> Relation<N, W, T> {
    /// The relation of so many events with no event before another, and nothing that waits.
    pub fn new(count: usize) -> Relation<N, W, T>
        requires { (count ≤ N) × Roomy N W T }
        ensures count { result.count ≡ count }
        ensures none { (x y : ℕ) → earlier result x y ≡ false }
        ensures idle { Idle result }
    {
        let after = Table::new();
        let before = Table::new();
        let dirty = EventSet::new();
        Relation {
            after,
            before,
            dirty,
            count,
        }
    }

    /// Begins anew in place, with so many events, no event before another, and nothing that waits.
    pub fn clear(&mut self, count: usize)
        requires { (count ≤ N) × Roomy N W T }
        ensures count { self.new.count ≡ count }
        ensures none { (x y : ℕ) → earlier self.new x y ≡ false }
        ensures idle { Idle self.new }
    {
        self.after.clear();
        self.before.clear();
        self.dirty = EventSet::new();
        self.count = count;
    }

    /// How many events there are.
    pub fn count(&self) -> usize
        ensures { result ≡ self.now.count }
    {
        self.count
    }

    /// Whether `x` is before `y`.
    pub fn precedes(&self, x: usize, y: usize) -> bool
        requires { (x < N) × (y < N) }
        ensures { result ≡ earlier self.now x y }
    {
        self.after.contains(x, y)
    }

    /// The events after `x`.
    pub fn successors(&self, x: usize) -> EventSet<W>
        requires { x < N }
        ensures { (y : ℕ) → has result y ≡ earlier self.now x y }
    {
        self.after.row(x)
    }

    /// The events before `y`.
    pub fn predecessors(&self, y: usize) -> EventSet<W>
        requires { y < N }
        ensures { (x : ℕ) → has result x ≡ earlier self.now x y }
    {
        self.before.row(y)
    }

    /// For each event the events before it.
    pub fn predecessor_rows(&self) -> [EventSet<W>; N]
        ensures rows { (x y : ℕ) → in_rows result y x ≡ earlier self.now x y }
        ensures each { length result ≡ N }
    {
        // Copied into rows of its own: the borrow checker does not cover `*self.before.rows()` yet.
        let mut rows = [EventSet::new(); N];
        rows.copy_from_slice(self.before.rows());
        rows
    }

    /// Adds the pair of `u` and `v` and all that follows by chains. Where that would close a cycle it changes
    /// nothing.
    pub fn link(&mut self, u: usize, v: usize) -> Result<(), Cycle>
        requires { (u < self.old.count) × (v < self.old.count) }
        ensures { MatchResult result (λ _. Linked u v self.old self.new) (λ _. Refused u v self.old self.new) }
    {
        if self.after.contains(u, v) {
            return Ok(());
        }
        if u == v || self.after.contains(v, u) {
            return Err(Cycle);
        }
        self.join(u, v);
        Ok(())
    }

    /// What the pair of `u` and `v` touches.
    fn span(&self, u: usize, v: usize) -> Span<W>
        requires { (u < N) × (v < N) }
        ensures { Spans self.now u v result }
    {
        let mut above = self.before.row(u);
        above.insert(u);
        let mut below = self.after.row(v);
        below.insert(v);
        let heads = above.difference(&self.before.row(v));
        let tails = below.difference(&self.after.row(u));
        Span {
            above,
            below,
            heads,
            tails,
        }
    }

    /// Adds a pair that is not ordered yet: all up to `u` comes before all from `v` on.
    fn join(&mut self, u: usize, v: usize)
        requires inside { (u < self.old.count) × (v < self.old.count) }
        requires open { free (earlier self.old) u v ≡ true }
        ensures { Linked u v self.old self.new }
    {
        let span = self.span(u, v);
        self.dirty.union_with(&span.heads);
        self.after.widen(&span.heads, &span.below);
        self.before.widen(&span.tails, &span.above);
    }
}
