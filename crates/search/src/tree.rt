//! A search that can be stopped and gone on with.
ghost use Rattle.std.specs.Prelude.{◌≢◌, ℕ, List};
ghost use Rattle.order.specs.History.{History};
ghost use Rattle.search.specs.Walks.{After};
ghost use Rattle.search.specs.declared.walk.Progress.TheVariants.{Failed};

use crate::walk::{Progress, Walk};

mod running;

/// A search for a serial order: where it is, and how many nodes it has visited.
#[derive(Drop)]
pub struct Search<const N: usize, const W: usize, const T: usize> {
    walk: Walk<N, W, T>,
    steps: u32,
    progress: Progress,
    ghost sound: { progress ≢ Failed → ∥ ((h : History) × (S : List (ℕ × ℕ)) × After h S steps walk progress) ∥₁ },
}
