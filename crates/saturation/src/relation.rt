//! A strict order of events that is kept closed under chains, and can be taken back.
ghost use Rattle.std.specs.Prelude.{◌≡◌, ℕ, ◌^◌, ◌<◌, ◌≤◌, Bool, true};
ghost use Rattle.sets.specs.Sets.{has};
ghost use Rattle.sets.specs.Rows.{in_row, trail_len};
ghost use Rattle.saturation.specs.Orders.{Sound};

use sets::{EventSet, Table};

mod link;
mod undo;

/// The pairs would close a cycle.
#[derive(Clone, Copy, PartialEq, Eq, Debug)]
pub struct Cycle;

/// A moment of a relation, to take it back to.
#[derive(Clone, Copy, Default)]
pub struct Mark {
    after: u32,
    before: u32,
}

/// A strict order of the events below `count`, closed under chains, and the events whose successors have changed
/// since they were looked at.
#[derive(Drop)]
pub struct Relation<const N: usize, const W: usize, const T: usize> {
    /// The events after each event.
    after: Table<N, W, T>,
    /// The events before each event.
    before: Table<N, W, T>,
    /// The events that wait to be looked at.
    dirty: EventSet<W>,
    /// How many events there are.
    count: usize,
    ghost fits: { count ≤ N },
    ghost short: { T < 2 ^ 32 },
    ghost listed: { (x : ℕ) → has dirty x ≡ true → x < count },
    ghost sound: { ∥ Sound count T (in_row after) (in_row before) (trail_len after) (trail_len before) ∥₁ },
}

/// What a new pair touches: its first event with all before it, its second with all after it, and of these the
/// events whose rows change.
#[derive(Clone, Copy)]
struct Span<const W: usize> {
    above: EventSet<W>,
    below: EventSet<W>,
    heads: EventSet<W>,
    tails: EventSet<W>,
}
