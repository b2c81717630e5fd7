//! The two rules on a closure, followed to the end whatever clashes.
ghost use Rattle.std.specs.Prelude.{◌≡◌, true, ◌⊎◌};
ghost use Rattle.sets.specs.Rows.{in_rows};
ghost use Rattle.saturation.specs.Ties.{takers_of};
ghost use Rattle.saturation.specs.Laws.{Closed, Sources, Readers, Settled};
ghost use Rattle.saturation.specs.Recorded.{history_in};
ghost use Rattle.closure.specs.Closures.{earlier, waits, Raised, Ready, Finished, MadeExact, Fits, After, Leads, ExactHere};

use super::Closure;
use saturation::{Facts, Stipulated};
use sets::EventSet;

impl<const N: usize, const W: usize> Closure<N, W> {
    /// The first rule, at the write `w`: before each write that a read after `w` takes from.
    fn before_sources(&mut self, facts: &Facts<N, W>, w: usize)
        requires { Fits facts.now self.old w }
        ensures raised { Raised (Closed facts.now) self.old self.new }
        ensures rule { Sources facts.now w (earlier self.old) (earlier self.new) }
    {
        let mut reads = self.successors(w).intersection(&facts.ties(w).others);
        while let Some(r) = reads.pop() {
            self.link(w, facts.ties(r).from as usize);
        }
    }

    /// The read `r`, which takes from `w`, before each of the writes that are listed.
    fn lead(&mut self, facts: &Facts<N, W>, w: usize, r: usize, later: &EventSet<W>)
        requires inside { Fits facts.now self.old w × (in_rows (takers_of facts.now.ties) w r ≡ true) }
        requires listed { After facts.now self.old w later.now }
        ensures raised { Raised (Closed facts.now) self.old self.new }
        ensures rule { Leads r later.now self.new }
    {
        let mut missing = later.difference(&self.successors(r));
        while let Some(q) = missing.pop() {
            self.link(r, q);
        }
    }

    /// The second rule, at the write `w`: each read that takes from it before each write of its star after it.
    fn readers_first(&mut self, facts: &Facts<N, W>, w: usize)
        requires { Fits facts.now self.old w }
        ensures raised { Raised (Closed facts.now) self.old self.new }
        ensures rule { Readers facts.now w (earlier self.old) (earlier self.new) }
    {
        let later = self.successors(w).intersection(&facts.ties(w).mates);
        let mut takers = facts.ties(w).takers;
        while let Some(r) = takers.pop() {
            self.lead(facts, w, r, &later);
        }
    }

    /// Both rules at the write `w`.
    fn settle(&mut self, facts: &Facts<N, W>, w: usize)
        requires { Fits facts.now self.old w }
        ensures raised { Raised (Closed facts.now) self.old self.new }
        ensures rule { (waits self.new w ≡ true) ⊎ Settled facts.now (earlier self.new) w }
    {
        self.before_sources(facts, w);
        self.readers_first(facts, w);
    }

    /// Adds all that the rules force.
    pub fn saturate(&mut self, facts: &Facts<N, W>)
        requires events { facts.now.count ≡ self.old.count }
        requires ready { Ready facts.now self.old }
        ensures finished { Finished facts.now self.old self.new }
        ensures exact { MadeExact facts.now self.old self.new }
    {
        while let Some(w) = self.next_waiting() {
            self.settle(facts, w);
        }
    }

    /// All that is before one another with these pairs standing.
    pub fn of(given: Stipulated<'_, N, W>) -> Closure<N, W>
        ensures { ExactHere (history_in given.entry.record.now) given.entry.pairs.now result }
    {
        let facts = Facts::of(given.record);
        let mut closure = Closure::new(given.record.count());
        closure.link_events(given.record);
        closure.link_pairs(given.pairs);
        closure.saturate(&facts);
        closure
    }
}
