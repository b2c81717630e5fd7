//! Sets of events.
ghost use Rattle.std.specs.Prelude.{◌≡◌, ℕ, length};

mod members;

/// A set of events by number, at most 64 for each of its `W` words.
#[derive(Clone, Copy)]
pub struct EventSet<const W: usize> {
    words: [u64; W],
    ghost sized: { length words ≡ W },
}
