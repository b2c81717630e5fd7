//! The events of a case, with the pairs whose order is kept.
ghost use Rattle.std.specs.Prelude.{◌≡◌, ℕ, ◌*◌, ◌<◌, ◌≤◌, true, length};
ghost use Rattle.order.specs.Opening.{Accepted};
ghost use Rattle.sets.specs.Rows.{in_rows};
ghost use Rattle.saturation.specs.Histories.{history_from};

use arrayvec::ArrayVec;
use history::Event;
use sets::EventSet;

mod keeping;
mod noting;
mod root;
mod stipulated;

pub use stipulated::Stipulated;

/// The events of a case that opening accepts, and the pairs of them that have to keep their order.
#[derive(Drop)]
pub struct Recorded<const N: usize, const W: usize> {
    /// The events of the case.
    events: ArrayVec<Event, N>,
    /// For each event the later ones that have to stay after it.
    kept: [EventSet<W>; N],
    ghost wide: { N ≤ 64 * W },
    ghost narrow: { W ≤ 1024 },
    ghost fits: { length events.items ≤ N },
    ghost each: { length kept ≡ N },
    ghost later: { (x y : ℕ) → in_rows kept x y ≡ true → (x < y) × (y < length events.items) },
    ghost accepted: { ∥ Accepted (history_from events.items kept) ∥₁ },
}
