//! What is before what where a cycle is no reason to stop: all that follows by chains, events that come before
//! themselves among it.
ghost use Rattle.std.specs.Prelude.{◌≡◌, ℕ, ◌*◌, ◌<◌, ◌≤◌, true, length};
ghost use Rattle.sets.specs.Sets.{has};
ghost use Rattle.sets.specs.Rows.{in_rows};
ghost use Rattle.saturation.specs.Orders.{Transitive};

use sets::EventSet;

mod closing;
mod filling;
mod link;
mod rows;

// The rules stand here and in `Relation` of `saturation`: that one stops at a cycle, keeps a trail and promises a strict
// order, and this one goes on and may have an event before itself. A trait for both would owe each promise twice.
/// A relation of the events below `count` that is closed under chains, and may have an event before itself; and the
/// events whose successors have changed since they were looked at.
#[derive(Drop)]
pub struct Closure<const N: usize, const W: usize> {
    /// The events after each event.
    after: [EventSet<W>; N],
    /// The events before each event.
    before: [EventSet<W>; N],
    /// The events that wait to be looked at.
    dirty: EventSet<W>,
    /// How many events there are.
    count: usize,
    ghost wide: { N ≤ 64 * W },
    ghost narrow: { W ≤ 1024 },
    ghost fits: { count ≤ N },
    ghost rows: { length after ≡ N },
    ghost columns: { length before ≡ N },
    ghost listed: { (x : ℕ) → has dirty x ≡ true → x < count },
    ghost firsts: { (x y : ℕ) → in_rows after x y ≡ true → x < count },
    ghost seconds: { (x y : ℕ) → in_rows after x y ≡ true → y < count },
    ghost mirror: { (x y : ℕ) → in_rows before y x ≡ in_rows after x y },
    ghost chains: { ∥ Transitive (in_rows after) ∥₁ },
}

/// What a new pair touches: its first event with all before it, its second with all after it, and of these the
/// events whose rows change.
#[derive(Clone, Copy)]
struct Spread<const W: usize> {
    above: EventSet<W>,
    below: EventSet<W>,
    heads: EventSet<W>,
    tails: EventSet<W>,
}
