//! The two rules, and how they are followed until nothing is left to do.
ghost use Rattle.std.specs.Prelude.{◌≡◌, ℕ, ◌<◌, Bool, true, MatchResult};
ghost use Rattle.sets.specs.Sets.{has};
ghost use Rattle.sets.specs.Rows.{in_rows};
ghost use Rattle.saturation.specs.Ties.{takers_of};
ghost use Rattle.saturation.specs.Relations.{earlier, Kept};
ghost use Rattle.saturation.specs.Laws.{Sources, Readers, Tended, Doomed, Ready, Saturated, Fitting, Later, Led, Comes};

use super::Facts;
use crate::relation::{Cycle, Relation};
use sets::EventSet;

impl<const N: usize, const W: usize, const T: usize> Relation<N, W, T> {
    /// The first rule, at the write `w`: before each write that a read after `w` takes from.
    fn before_sources(&mut self, facts: &Facts<N, W>, w: usize) -> Result<(), Cycle>
        requires { Fitting facts.now self.old w }
        ensures kept { Kept self.old self.new }
        ensures rule { Comes facts.now self.old self.new (Sources facts.now w) result }
    {
        let mut reads = self.successors(w).intersection(&facts.ties[w].others);
        while let Some(r) = reads.pop() {
            self.link(w, facts.ties[r].from as usize)?;
        }
        Ok(())
    }

    /// The read `r`, which takes from `w`, before each of the writes that are listed.
    fn lead(
        &mut self,
        facts: &Facts<N, W>,
        w: usize,
        r: usize,
        later: &EventSet<W>,
    ) -> Result<(), Cycle>
        requires inside { Fitting facts.now self.old w × (in_rows (takers_of facts.now.ties) w r ≡ true) }
        requires listed { Later facts.now self.old w later.now }
        ensures kept { Kept self.old self.new }
        ensures rule { Comes facts.now self.old self.new (λ _. Led r later.now) result }
    {
        let mut missing = later.difference(&self.successors(r));
        while let Some(q) = missing.pop() {
            self.link(r, q)?;
        }
        Ok(())
    }

    /// The second rule, at the write `w`: each read that takes from it before each write of its star after it.
    fn readers_first(&mut self, facts: &Facts<N, W>, w: usize) -> Result<(), Cycle>
        requires { Fitting facts.now self.old w }
        ensures kept { Kept self.old self.new }
        ensures rule { Comes facts.now self.old self.new (Readers facts.now w) result }
    {
        let later = self.successors(w).intersection(&facts.ties[w].mates);
        let mut takers = facts.ties[w].takers;
        while let Some(r) = takers.pop() {
            self.lead(facts, w, r, &later)?;
        }
        Ok(())
    }

    /// Both rules at the write `w`.
    fn settle(&mut self, facts: &Facts<N, W>, w: usize) -> Result<(), Cycle>
        requires { Fitting facts.now self.old w }
        ensures kept { Kept self.old self.new }
        ensures rule { Comes facts.now self.old self.new (λ _ _. Tended facts.now self.new w) result }
    {
        self.before_sources(facts, w)?;
        self.readers_first(facts, w)
    }

    /// Adds all that the rules force. Where that closes a cycle it stops there.
    pub fn saturate(&mut self, facts: &Facts<N, W>) -> Result<(), Cycle>
        requires events { facts.now.count ≡ self.old.count }
        requires ready { Ready facts.now self.old }
        ensures kept { Kept self.old self.new }
        ensures closed { MatchResult result (λ _. Saturated facts.now self.old self.new) (λ _. Doomed facts.now (earlier self.old)) }
    {
        while let Some(w) = self.next_waiting() {
            self.settle(facts, w)?;
        }
        Ok(())
    }
}
