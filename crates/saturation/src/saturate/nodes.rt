//! From one node of a search to the next: a pair is added, or the first pair that is not ordered is found.
ghost use Rattle.std.specs.Prelude.{◌≡◌, ℕ, ◌<◌, ◌≤◌, MatchOption, is_ok};
ghost use Rattle.saturation.specs.Adding.{Addable, Added, FirstOpen, NoneOpen};

use super::Facts;
use crate::relation::{Cycle, Relation};

impl<const N: usize, const W: usize, const T: usize> Relation<N, W, T> {
    /// Adds the pair of `u` and `v` with all that the rules force then. Where that closes a cycle it stops there.
    pub fn add(&mut self, facts: &Facts<N, W>, u: usize, v: usize) -> Result<(), Cycle>
        requires { Addable facts.now self.old u v }
        ensures { Added facts.now u v self.old self.new (is_ok result) }
    {
        self.link(u, v)?;
        self.saturate(facts)
    }

    /// The first pair of writes of one star that is not ordered, the lower event first, among the pairs whose lower
    /// event is `from` or a later one.
    pub fn first_unordered(&self, facts: &Facts<N, W>, from: usize) -> Option<(usize, usize)>
        requires { facts.now.count ≡ self.now.count }
        ensures { MatchOption result (NoneOpen facts.now from self.now) (λ p. FirstOpen facts.now from self.now p.0 p.1) }
    {
        // a is a number in rows and sets, and no element of a list.
        for a in from..self.count() {
            let mut open = facts.ties[a]
                .mates
                .difference(&self.successors(a))
                .difference(&self.predecessors(a));
            while let Some(b) = open.pop() {
                if a < b {
                    return Some((a, b));
                }
            }
        }
        None
    }
}
