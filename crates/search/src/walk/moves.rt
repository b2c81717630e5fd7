//! From one node to the next.
ghost use Rattle.std.specs.Prelude.{◌≡◌, ℕ, ◌+◌, List, MatchResult};
ghost use Rattle.order.specs.History.{History};
ghost use Rattle.saturation.specs.Orders.{Roomy};
ghost use Rattle.saturation.specs.Recorded.{history_in};
ghost use Rattle.search.specs.Walks.{choices_of, from_of, Walking, Walks, Entered, Enters, Clashed, Clashes, After};

use super::{Choice, Progress, Walk};
use arrayvec::ArrayVec;
use saturation::{Cycle, Facts, Relation, Stipulated};

impl<const N: usize, const W: usize, const T: usize> Walk<N, W, T> {
    /// A walk of no events, for `restart` to begin in place.
    pub(crate) fn idle() -> Walk<N, W, T>
        requires { Roomy N W T }
    {
        Walk {
            facts: Facts::new(0),
            relation: Relation::new(0),
            choices: ArrayVec::new(),
            root: Ok(()),
        }
    }

    /// Comes to the first node for a record with pairs that stand, in place.
    pub(crate) fn restart(&mut self, given: Stipulated<'_, N, W>)
        ensures { Walking (history_in given.entry.record.now) given.entry.pairs.now 0 self.new }
    {
        self.facts = Facts::of(given.record);
        self.relation.clear(given.record.count());
        self.root = self.relation.root(given, &self.facts);
        self.choices.clear();
    }

    /// Visits the next node, and says how the search stands then.
    pub(crate) fn visit(&mut self) -> Progress
        requires { Walks self.old }
        ensures { (h : History) (S : List (ℕ × ℕ)) (s : ℕ) → Walking h S s self.old → After h S (s + 1) self.new result }
    {
        match self.enter() {
            Ok(()) => self.descend(),
            Err(Cycle) => self.retreat(),
        }
    }

    /// Comes to the next node. An error says that it has a clash.
    fn enter(&mut self) -> Result<(), Cycle>
        requires { Walks self.old }
        ensures { (h : History) (S : List (ℕ × ℕ)) (s : ℕ) → Walking h S s self.old → MatchResult result (λ _. Entered h S s self.new) (λ _. Clashed h S s self.new) }
    {
        match self.choices.last() {
            None => self.root,
            Some(c) => self
                .relation
                .add(&self.facts, c.first as usize, c.second as usize),
        }
    }

    /// The lower event of the last pair that was chosen: no unordered pair has a lower one.
    fn lowest(&self) -> usize
        ensures { result ≡ from_of (choices_of self.now) }
    {
        match self.choices.last() {
            None => 0,
            Some(c) => c.first.min(c.second) as usize,
        }
    }

    /// Chooses the first unordered pair, the lower write first, and walks on; succeeds where every pair is ordered.
    fn descend(&mut self) -> Progress
        requires { Enters self.old }
        ensures stands { (h : History) (S : List (ℕ × ℕ)) (s : ℕ) → Entered h S s self.old → After h S (s + 1) self.new result }
        ensures found { ¬ (result ≡ Progress.Failed) }
    {
        match self.relation.first_unordered(&self.facts, self.lowest()) {
            Some((a, b)) => {
                let mark = self.relation.mark();
                self.choices.push(Choice {
                    first: a as u16,
                    second: b as u16,
                    mark,
                });
                Progress::Running
            }
            None => Progress::Succeeded,
        }
    }

    /// Goes back to the latest pair that was tried one way only, turns it round, and walks on; fails where there is none.
    fn retreat(&mut self) -> Progress
        requires { Clashes self.old }
        ensures stands { (h : History) (S : List (ℕ × ℕ)) (s : ℕ) → Clashed h S s self.old → After h S (s + 1) self.new result }
        ensures left { ¬ (result ≡ Progress.Succeeded) }
    {
        while let Some(c) = self.choices.pop() {
            if c.first < c.second {
                self.relation.undo_to(c.mark);
                self.choices.push(Choice {
                    first: c.second,
                    second: c.first,
                    mark: c.mark,
                });
                return Progress::Running;
            }
        }
        Progress::Failed
    }
}
