//! The order that a preference picks where what is before what is known.

#![tactic(auto)]

ghost use Rattle.std.specs.Prelude.{◌≡◌, ℕ, ◌*◌, ◌<◌, ◌≤◌, suc, true, length, IfSome, Decides, MatchOption};
ghost use Rattle.arrayvec.specs.ArrayVec.{array_vec_len};
ghost use Rattle.sets.specs.Sets.{has};
ghost use Rattle.order.specs.History.{event_at};
ghost use Rattle.placing.specs.Placing.{Room, PlacesAll, prefers_to, CanBePlaced, Next};

use arrayvec::ArrayVec;
use history::{Candidate, Event, Preference};
use sets::EventSet;

/// The order that places, again and again, the most preferred event whose predecessors are all placed.
///
/// `rows` has for each of the events those before it.
pub fn place<P: Preference, const N: usize, const W: usize>(
    events: &[Event],
    rows: &[EventSet<W>; N],
    preference: &P,
) -> ArrayVec<u16, N>
    requires { Room (length events.now) N W }
    ensures placed { PlacesAll (record { prefers = P.Preference.prefers preference.now; lawful = P.Preference.lawful preference.now }) events.now rows.now result.items }
    ensures few { array_vec_len result ≤ length events.now }
{
    let mut order = ArrayVec::new();
    let mut placed = EventSet::new();
    // as many rounds as there are events; a round names no event
    for _ in 0..events.len() {
        // there is one, unless some event is before itself
        if let Some(x) = next(events, rows, &placed, preference) {
            placed.insert(x);
            order.push(x as u16 + 1);
        }
    }
    order
}

/// The most preferred event that can be placed next, if there is one.
fn next<P: Preference, const N: usize, const W: usize>(
    events: &[Event],
    rows: &[EventSet<W>; N],
    placed: &EventSet<W>,
    preference: &P,
) -> Option<usize>
    requires { Room (length events.now) N W }
    ensures { Next (P.Preference.prefers preference.now) events.now rows.now placed.now (length events.now) result }
{
    let mut best = None;
    // an index is an event's name in rows and sets, so `iter().enumerate()` would bind an event that nothing reads
    for x in 0..events.len() {
        if is_ready(rows, placed, x) && is_better(events, preference, x, best) {
            best = Some(x);
        }
    }
    best
}

/// Whether the event `x` can be placed next: it is not placed, and its predecessors are.
fn is_ready<const N: usize, const W: usize>(
    rows: &[EventSet<W>; N],
    placed: &EventSet<W>,
    x: usize,
) -> bool
    requires { (x < N) × (N ≤ 64 * W) }
    ensures { Decides result (CanBePlaced rows.now placed.now x) }
{
    let predecessors = rows[x];
    !placed.contains(x) && is_subset(&predecessors, placed)
}

/// Whether all events of a set are in the other.
fn is_subset<const W: usize>(set: &EventSet<W>, other: &EventSet<W>) -> bool
    ensures { Decides result ((k : ℕ) → has set.now k ≡ true → has other.now k ≡ true) }
{
    // a set is empty where it does not meet itself
    let missing = set.difference(other);
    !missing.intersects(&missing)
}

/// The event at a place, with its number.
fn candidate(events: &[Event], x: usize) -> Candidate
    requires short { length events.now ≤ 65535 }
    requires inside { x < length events.now }
    ensures number { result.number ≡ suc x }
    ensures event { result.event ≡ event_at events.now (suc x) }
{
    Candidate {
        number: x as u16 + 1,
        event: events[x],
    }
}

/// Whether the event `x` is preferred to the best so far, if there is one.
fn is_better<P: Preference>(events: &[Event], preference: &P, x: usize, best: Option<usize>) -> bool
    requires short { length events.now ≤ 65535 }
    requires first { x < length events.now }
    requires second { IfSome best (λ b. b < length events.now) }
    ensures { MatchOption best (result ≡ true) (λ b. result ≡ prefers_to (P.Preference.prefers preference.now) events.now x b) }
{
    match best {
        Some(b) => preference.prefers(candidate(events, x), candidate(events, b)),
        None => true,
    }
}
