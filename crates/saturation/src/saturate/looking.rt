//! What the facts say.
ghost use Rattle.std.specs.Prelude.{◌≡◌, ℕ, ◌<◌, slice_index};
ghost use Rattle.sets.specs.Sets.{has};
ghost use Rattle.sets.specs.Rows.{in_rows};
ghost use Rattle.saturation.specs.Ties.{others_of, mates_of, takers_of, from_of};

use super::{Facts, Ties};

impl<const N: usize, const W: usize> Facts<N, W> {
    /// How many events there are.
    pub fn count(&self) -> usize
        ensures { result ≡ self.now.count }
    {
        self.count
    }

    /// What the event `x` has to do with others.
    pub fn ties(&self, x: usize) -> &Ties<W>
        requires { x < N }
        ensures others { (r : ℕ) → has result.now.others r ≡ in_rows (others_of self.now.ties) x r }
        ensures mates { (q : ℕ) → has result.now.mates q ≡ in_rows (mates_of self.now.ties) x q }
        ensures takers { (r : ℕ) → has result.now.takers r ≡ in_rows (takers_of self.now.ties) x r }
        ensures from { result.now.from ≡ slice_index (from_of self.now.ties) x }
    {
        &self.ties[x]
    }
}
