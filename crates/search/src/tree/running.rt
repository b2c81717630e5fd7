//! How a search runs.
ghost use Rattle.std.specs.Prelude.{◌≡◌, ℕ, List, length};
ghost use Rattle.order.specs.History.{History};
ghost use Rattle.saturation.specs.Orders.{Roomy};
ghost use Rattle.sets.specs.Rows.{in_rows};
ghost use Rattle.saturation.specs.Relations.{earlier};
ghost use Rattle.saturation.specs.Recorded.{history_in};
ghost use Rattle.search.specs.Searches.{SearchOf, Ran};

use super::Search;
use crate::walk::{Progress, Walk};
use saturation::Stipulated;
use sets::EventSet;

impl<const N: usize, const W: usize, const T: usize> Search<N, W, T> {
    /// A search with nothing left to visit, for `restart` to begin in place: a search is too large to be moved about.
    pub fn idle() -> Search<N, W, T>
        requires { Roomy N W T }
    {
        Search {
            walk: Walk::idle(),
            steps: 0,
            progress: Progress::Failed,
        }
    }

    /// The search for a record with pairs that stand. No node is visited yet.
    pub fn start(given: Stipulated<'_, N, W>) -> Search<N, W, T>
        requires { Roomy N W T }
        ensures search { SearchOf (history_in given.entry.record.now) given.entry.pairs.now result }
        ensures none { result.steps ≡ 0 }
    {
        let mut search = Search::idle();
        search.restart(given);
        search
    }

    /// Begins the search for a record with pairs that stand. No node is visited yet.
    pub fn restart(&mut self, given: Stipulated<'_, N, W>)
        ensures search { SearchOf (history_in given.entry.record.now) given.entry.pairs.now self.new }
        ensures none { self.new.steps ≡ 0 }
    {
        self.walk.restart(given);
        self.steps = 0;
        self.progress = Progress::Running;
    }

    /// How many nodes were visited.
    pub fn steps(&self) -> u32
        ensures { result ≡ self.now.steps }
    {
        self.steps
    }

    /// For each event the events before it, at the node where the search is.
    pub fn before_rows(&self) -> [EventSet<W>; N]
        ensures rows { (x y : ℕ) → in_rows result y x ≡ earlier self.now.walk.relation x y }
        ensures each { length result ≡ N }
    {
        self.walk.relation.predecessor_rows()
    }

    /// Goes on until the search has ended or `limit` nodes were visited in all, and says how it stands.
    pub fn run(&mut self, limit: u32) -> Progress
        ensures { (h : History) (S : List (ℕ × ℕ)) → SearchOf h S self.old → Ran h S limit self.old self.new result }
    {
        while self.progress == Progress::Running && self.steps < limit {
            self.progress = self.walk.visit();
            self.steps += 1;
        }
        self.progress
    }
}
