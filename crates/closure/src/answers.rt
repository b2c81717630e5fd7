//! What the pairs that stand force, and where they clash.
ghost use Rattle.std.specs.Prelude.{◌≡◌, suc, ◌<◌, true, ◌↔◌, MatchOption};
ghost use Rattle.order.specs.History.{History};
ghost use Rattle.order.specs.Before.{Before, Clash};
ghost use Rattle.saturation.specs.Recorded.{history_in};
ghost use Rattle.closure.specs.Closures.{Given, RowsOf, FirstClash};

use crate::reach::Closure;
use saturation::{Facts, Stipulated};
use sets::EventSet;

/// Whether the event `a` is before the event `b` with these pairs standing.
pub fn forced<const N: usize, const W: usize>(
    given: Stipulated<'_, N, W>,
    a: usize,
    b: usize,
) -> bool
    requires { (a < N) × (b < N) }
    ensures { (result ≡ true) ↔ Before (history_in given.entry.record.now) given.entry.pairs.now (suc a) (suc b) }
{
    Closure::of(given).precedes(a, b)
}

/// The lowest event that is before itself with these pairs standing, if there is one.
pub fn clash<const N: usize, const W: usize>(given: Stipulated<'_, N, W>) -> Option<usize>
    ensures { MatchOption result (Clash (history_in given.entry.record.now) given.entry.pairs.now → ⊥) (λ x. FirstClash (history_in given.entry.record.now) given.entry.pairs.now (suc x)) }
{
    Closure::of(given).lowest_clash()
}

/// Whether the event `a` is before the event `b` with these pairs standing, by facts and rows.
pub fn forced_by_rows<const N: usize, const W: usize>(
    facts: &Facts<N, W>,
    kept: &[EventSet<W>; N],
    starts: &[EventSet<W>; N],
    pairs: &[(u16, u16)],
    a: usize,
    b: usize,
) -> bool
    requires given { Given facts.now kept.now starts.now pairs.now }
    requires inside { (a < N) × (b < N) }
    ensures { (h : History) → RowsOf h facts.now kept.now starts.now → (result ≡ true) ↔ Before h pairs.now (suc a) (suc b) }
{
    Closure::of_rows(facts, kept, starts, pairs).precedes(a, b)
}

/// The lowest event that is before itself with these pairs standing, if there is one, by facts and rows.
pub fn clash_by_rows<const N: usize, const W: usize>(
    facts: &Facts<N, W>,
    kept: &[EventSet<W>; N],
    starts: &[EventSet<W>; N],
    pairs: &[(u16, u16)],
) -> Option<usize>
    requires { Given facts.now kept.now starts.now pairs.now }
    ensures { (h : History) → RowsOf h facts.now kept.now starts.now → MatchOption result (Clash h pairs.now → ⊥) (λ x. FirstClash h pairs.now (suc x)) }
{
    Closure::of_rows(facts, kept, starts, pairs).lowest_clash()
}
