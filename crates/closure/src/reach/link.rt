//! What a closure has, and how a pair is added.
ghost use Rattle.std.specs.Prelude.{◌≡◌, ℕ, ◌*◌, ◌<◌, ◌≤◌, true, false, length, MatchOption};
ghost use Rattle.sets.specs.Sets.{has, Popped};
ghost use Rattle.sets.specs.Rows.{in_rows, widened};
ghost use Rattle.closure.specs.Closures.{earlier, Idle, Joined, Still, Calm, Lowest, Spreads};

use super::{Closure, Spread};
use sets::EventSet;

impl<const N: usize, const W: usize> Closure<N, W> {
    /// The closure of so many events with no event before another, and nothing that waits.
    pub fn new(count: usize) -> Closure<N, W>
        requires { (count ≤ N) × (N ≤ 64 * W) × (W ≤ 1024) }
        ensures count { result.count ≡ count }
        ensures none { (x y : ℕ) → earlier result x y ≡ false }
        ensures idle { Idle result }
    {
        let empty = EventSet::new();
        Closure {
            after: [empty; N],
            before: [empty; N],
            dirty: empty,
            count,
        }
    }

    /// How many events there are.
    pub fn count(&self) -> usize
        ensures { result ≡ self.now.count }
    {
        self.count
    }

    /// Whether `x` is before `y`.
    pub fn precedes(&self, x: usize, y: usize) -> bool
        requires { (x < N) × (y < N) }
        ensures { result ≡ earlier self.now x y }
    {
        self.after[x].contains(y)
    }

    /// The events after `x`.
    pub fn successors(&self, x: usize) -> EventSet<W>
        requires { x < N }
        ensures { (y : ℕ) → has result y ≡ earlier self.now x y }
    {
        self.after[x]
    }

    /// The lowest event that is before itself, if there is one.
    pub fn lowest_clash(&self) -> Option<usize>
        ensures { MatchOption result (Calm self.now) (Lowest self.now) }
    {
        (0..self.count).find(
            |&x|
                requires { x < N }
                ensures { result ≡ earlier self.entry.now x x }
            { self.after[x].contains(x) },
        )
    }

    /// Adds the pair of `u` and `v` and all that follows by chains. What has new successors waits.
    pub fn link(&mut self, u: usize, v: usize)
        requires { (u < self.old.count) × (v < self.old.count) }
        ensures { Joined u v self.old self.new }
    {
        if !self.precedes(u, v) {
            self.join(u, v);
        }
    }

    /// What the pair of `u` and `v` touches.
    fn spread(&self, u: usize, v: usize) -> Spread<W>
        requires { (u < N) × (v < N) }
        ensures { Spreads self.now u v result }
    {
        let mut above = self.before[u];
        above.insert(u);
        let mut below = self.after[v];
        below.insert(v);
        let heads = above.difference(&self.before[v]);
        let tails = below.difference(&self.after[u]);
        Spread {
            above,
            below,
            heads,
            tails,
        }
    }

    /// Adds the pair of `u` and `v`: all up to `u` comes before all from `v` on.
    fn join(&mut self, u: usize, v: usize)
        requires { (u < self.old.count) × (v < self.old.count) }
        ensures { Joined u v self.old self.new }
    {
        let spread = self.spread(u, v);
        self.dirty.union_with(&spread.heads);
        widen(&mut self.after, &spread.heads, &spread.below);
        widen(&mut self.before, &spread.tails, &spread.above);
    }

    /// Takes the lowest of the events that wait off the list, if one is left.
    pub(crate) fn next_waiting(&mut self) -> Option<usize>
        ensures still { Still self.old self.new }
        ensures next { MatchOption result (Idle self.old × Idle self.new) (Popped self.old.dirty self.new.dirty) }
    {
        self.dirty.pop()
    }
}

/// Adds more to each row that is picked.
fn widen<const N: usize, const W: usize>(
    rows: &mut [EventSet<W>; N],
    which: &EventSet<W>,
    more: &EventSet<W>,
)
    requires narrow { W ≤ 1024 }
    requires inside { (x : ℕ) → has which.now x ≡ true → x < N }
    requires full { length rows.old ≡ N }
    ensures rows { in_rows rows.new ≡ widened (in_rows rows.old) (has which.now) (has more.now) }
    ensures full { length rows.new ≡ N }
{
    let mut rest = *which;
    while let Some(x) = rest.pop() {
        rows[x].union_with(more);
    }
}
