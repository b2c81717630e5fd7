//! Rows of events that can be taken back.
ghost use Rattle.std.specs.Prelude.{◌≡◌, ℕ, ◌*◌, ◌<◌, ◌≤◌, length, slice_index};

use crate::set::EventSet;

mod trail;

/// A row of events for each event below `N`, and a trail with room for `T` rows as they were before a change.
#[derive(Drop)]
pub struct Table<const N: usize, const W: usize, const T: usize> {
    rows: [EventSet<W>; N],
    // Two arrays and a count, and no `ArrayVec` of saved rows: that writes a blank over each row that it drops, and takes
    // 40 bytes for a row of 34.
    /// Which row the entry of the trail is.
    at: [u16; T],
    /// That row as it was.
    saved: [EventSet<W>; T],
    /// How many entries the trail has.
    len: usize,
    ghost wide: { N ≤ 64 * W },
    ghost narrow: { W ≤ 1024 },
    ghost sized: { length rows ≡ N },
    ghost marks: { length at ≡ T },
    ghost olds: { length saved ≡ T },
    ghost deep: { len ≤ T },
    ghost held: { (k : ℕ) → k < len → slice_index at k < N },
}
