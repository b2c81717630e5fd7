//! A closure of facts and rows that are given, of whatever history they are.
ghost use Rattle.order.specs.History.{History};
ghost use Rattle.closure.specs.Closures.{Given, Filled, RowsOf, ExactHere};

use super::Closure;
use saturation::Facts;
use sets::EventSet;

impl<const N: usize, const W: usize> Closure<N, W> {
    /// The closure with the kept pairs, reads of revision 0 before the writes of their star, writes before the reads
    /// that take from them, and the pairs that stand.
    fn filled(
        facts: &Facts<N, W>,
        kept: &[EventSet<W>; N],
        starts: &[EventSet<W>; N],
        pairs: &[(u16, u16)],
    ) -> Closure<N, W>
        requires { Given facts.now kept.now starts.now pairs.now }
        ensures { Filled facts.now kept.now starts.now pairs.now result }
    {
        let mut closure = Closure::new(facts.count());
        closure.link_rows(kept);
        closure.link_rows(starts);
        closure.link_takers(facts);
        closure.link_pairs(pairs);
        closure
    }

    /// All that is before one another with these pairs standing, of the events of these facts and rows.
    pub fn of_rows(
        facts: &Facts<N, W>,
        kept: &[EventSet<W>; N],
        starts: &[EventSet<W>; N],
        pairs: &[(u16, u16)],
    ) -> Closure<N, W>
        requires { Given facts.now kept.now starts.now pairs.now }
        ensures { (h : History) → RowsOf h facts.now kept.now starts.now → ExactHere h pairs.now result }
    {
        let mut closure = Closure::filled(facts, kept, starts, pairs);
        closure.saturate(facts);
        closure
    }
}
