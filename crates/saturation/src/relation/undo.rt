//! What waits in a relation, and how it is taken back.
ghost use Rattle.std.specs.Prelude.{◌≡◌, ℕ, ◌<◌, ◌≤◌, Bool, true, false, not, ◌&&◌, ◌||◌, MatchOption};
ghost use Rattle.sets.specs.Sets.{has, Popped};
ghost use Rattle.saturation.specs.Relations.{waits, Idle, mark_of, Marked, Undone, Unmoved};

use super::{Mark, Relation};
use sets::EventSet;

impl Mark {
    /// The moment when nothing has been linked.
    pub fn first() -> Mark {
        Mark {
            after: 0,
            before: 0,
        }
    }
}

impl<const N: usize, const W: usize, const T: usize> Relation<N, W, T> {
    /// This moment of the relation, to come back to by `undo_to`.
    pub fn mark(&self) -> Mark
        ensures { result ≡ mark_of self.now }
    {
        Mark {
            after: self.after.mark() as u32,
            before: self.before.mark() as u32,
        }
    }

    /// Takes back all that was linked since the mark was taken. Nothing waits then.
    pub fn undo_to(&mut self, mark: Mark)
        requires { ∥ Marked self.old mark ∥₁ }
        ensures { Undone self.old self.new mark }
    {
        self.after.undo_to(mark.after as usize);
        self.before.undo_to(mark.before as usize);
        self.dirty = EventSet::new();
    }

    /// Puts these events on the list of those that wait.
    pub fn enqueue(&mut self, events: &EventSet<W>)
        requires { (x : ℕ) → has events.now x ≡ true → x < self.old.count }
        ensures unmoved { Unmoved self.old self.new }
        ensures waiting { (x : ℕ) → waits self.new x ≡ (waits self.old x || has events.now x) }
    {
        self.dirty.union_with(events);
    }

    /// Takes the lowest of the events that wait off the list, if one is left.
    pub(crate) fn next_waiting(&mut self) -> Option<usize>
        ensures unmoved { Unmoved self.old self.new }
        ensures next { MatchOption result (Idle self.old × Idle self.new) (Popped self.old.dirty self.new.dirty) }
    {
        self.dirty.pop()
    }
}
