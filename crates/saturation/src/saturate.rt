//! What the rules of a history force in a relation.
ghost use Rattle.std.specs.Prelude.{◌≡◌, ℕ, ◌*◌, ◌<◌, ◌≤◌, Bool, true, length, slice_index};
ghost use Rattle.sets.specs.Rows.{in_rows};
ghost use Rattle.saturation.specs.Ties.{others_of, mates_of, takers_of, from_of};

use sets::EventSet;

mod filling;
mod looking;
mod nodes;
mod rules;

/// What an event has to do with others: if it is a write with the events of its star, if a read with a write.
#[derive(Clone, Copy)]
pub struct Ties<const W: usize> {
    /// The reads of a write's star that take from another write.
    pub others: EventSet<W>,
    /// The other writes of a write's star.
    pub mates: EventSet<W>,
    /// The reads that take from a write.
    pub takers: EventSet<W>,
    /// The write that a read takes from.
    pub from: u16,
}

/// What the rules look at: the ties of each event.
#[derive(Drop)]
pub struct Facts<const N: usize, const W: usize> {
    /// The ties of each event.
    ties: [Ties<W>; N],
    /// How many events there are.
    count: usize,
    ghost wide: { N ≤ 64 * W },
    ghost narrow: { W ≤ 1024 },
    ghost fits: { count ≤ N },
    ghost each: { length ties ≡ N },
    ghost reads: { (w r : ℕ) → in_rows (others_of ties) w r ≡ true → r < count },
    ghost writes: { (w q : ℕ) → in_rows (mates_of ties) w q ≡ true → q < count },
    ghost readers: { (w r : ℕ) → in_rows (takers_of ties) w r ≡ true → r < count },
    ghost sources: { (r : ℕ) → r < count → slice_index (from_of ties) r < count },
}
