//! The facts of a record.
ghost use Rattle.std.specs.Prelude.{◌≡◌, ℕ, ◌<◌, Bool, nat_eq, nat_lt};
ghost use Rattle.order.specs.History.{count};
ghost use Rattle.saturation.specs.Nodes.{FactsOf};
ghost use Rattle.saturation.specs.Noting.{Noted, with_row};
ghost use Rattle.saturation.specs.Recorded.{history_in};

use super::Recorded;
use crate::saturate::Facts;
use history::WRITE;

impl<const N: usize, const W: usize> Facts<N, W> {
    /// The facts of a record.
    pub fn of(case: &Recorded<N, W>) -> Facts<N, W>
        ensures { FactsOf (history_in case.now) result }
    {
        let mut facts = Facts::new(case.count());
        // x is a number in rows and sets, and no element of a list.
        for x in 0..case.count() {
            facts.note_all(case, x);
        }
        facts
    }

    /// Notes what the event `x` has to do with each event.
    fn note_all(&mut self, case: &Recorded<N, W>, x: usize)
        requires { (x < count (history_in case.now)) × (self.old.count ≡ count (history_in case.now)) }
        ensures same { self.new.count ≡ self.old.count }
        ensures noted { (D : ℕ → ℕ → Bool) → Noted (history_in case.now) D self.old → Noted (history_in case.now) (with_row D x (λ q. nat_lt q (count (history_in case.now)))) self.new }
    {
        // y is a number in rows and sets, and no element of a list.
        for y in 0..case.count() {
            self.note(case, x, y);
        }
    }

    /// Notes what the event `x` has to do with the event `y`.
    fn note(&mut self, case: &Recorded<N, W>, x: usize, y: usize)
        requires { (x < count (history_in case.now)) × (y < count (history_in case.now)) × (self.old.count ≡ count (history_in case.now)) }
        ensures same { self.new.count ≡ self.old.count }
        ensures noted { (D : ℕ → ℕ → Bool) → Noted (history_in case.now) D self.old → Noted (history_in case.now) (with_row D x (λ q. nat_eq q y)) self.new }
    {
        let first = case.event(x);
        let second = case.event(y);
        if first.kind != WRITE || first.star != second.star {
            return;
        }
        if second.kind == WRITE {
            if x != y {
                self.add_mate(x, y);
            }
        } else if second.revision == first.revision {
            self.add_taker(x, y);
        } else if second.revision != 0 {
            self.add_other(x, y);
        }
    }
}
