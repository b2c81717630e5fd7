//! What a set has, and how it is changed.
ghost use Rattle.std.specs.Prelude.{◌≡◌, ◌≢◌, ℕ, ◌*◌, ◌<◌, ◌≤◌, Bool, true, false, not, ◌&&◌, ◌||◌, Decides, MatchOption, ◌==◌, slice_index};
ghost use Rattle.sets.specs.Sets.{has, Empty, Meets, Popped};

use super::EventSet;

impl<const W: usize> EventSet<W> {
    /// The empty set.
    pub fn new() -> EventSet<W>
        ensures { Empty result }
    {
        EventSet { words: [0; W] }
    }

    /// Whether the event `k` is in the set.
    pub fn contains(&self, k: usize) -> bool
        requires { k < 64 * W }
        ensures { result ≡ has self.now k }
    {
        (self.words[k / 64] >> (k % 64)) & 1 == 1
    }

    /// Puts the event `k` into the set.
    pub fn insert(&mut self, k: usize)
        requires { k < 64 * W }
        ensures { (j : ℕ) → has self.new j ≡ (j == k || has self.old j) }
    {
        self.words[k / 64] |= 1 << (k % 64);
    }

    /// Puts all events of the other set into this one.
    pub fn union_with(&mut self, other: &EventSet<W>)
        ensures { (j : ℕ) → has self.new j ≡ (has self.old j || has other.now j) }
    {
        *self = self.combined(other, |a, b| a | b);
    }

    /// The events that are in both sets.
    pub fn intersection(&self, other: &EventSet<W>) -> EventSet<W>
        ensures { (j : ℕ) → has result j ≡ (has self.now j && has other.now j) }
    {
        self.combined(other, |a, b| a & b)
    }

    /// The events of this set that the other does not have.
    pub fn difference(&self, other: &EventSet<W>) -> EventSet<W>
        ensures { (j : ℕ) → has result j ≡ (has self.now j && not (has other.now j)) }
    {
        self.combined(other, |a, b| a ^ (a & b))
    }

    /// The set whose words the closure makes of the two sets' words.
    fn combined<F: Fn(u64, u64) -> u64>(&self, other: &EventSet<W>, join: F) -> EventSet<W>
        requires { F.IsAlwaysCallable join }
        ensures { (i : ℕ) → i < W → F.post join (slice_index self.now.words i) (slice_index other.now.words i) (slice_index result.words i) }
    {
        let mut words = self.words;
        for (i, word) in other.words.iter().enumerate() {
            words[i] = join(words[i], *word);
        }
        EventSet { words }
    }

    /// Whether some event is in both sets.
    pub fn intersects(&self, other: &EventSet<W>) -> bool
        ensures { Decides result (Meets self.now other.now) }
    {
        for (a, b) in self.words.iter().zip(&other.words) {
            if a & b != 0 {
                return true;
            }
        }
        false
    }

    /// Takes the lowest event out, if there is one.
    pub fn pop(&mut self) -> Option<usize>
        requires { W ≤ 1024 }
        ensures { MatchOption result (Empty self.old × Empty self.new) (Popped self.old self.new) }
    {
        let i = self.first_word()?;
        let low = self.words[i].trailing_zeros();
        self.words[i] ^= 1 << low;
        Some(64 * i + low as usize)
    }

    /// The first word that has an event.
    fn first_word(&self) -> Option<usize>
        ensures { MatchOption result ((i : ℕ) → slice_index self.now.words i ≡ 0) (λ i. (i < W) × (slice_index self.now.words i ≢ 0) × ((k : ℕ) → k < i → slice_index self.now.words k ≡ 0)) }
    {
        self.words.iter().position(|word| *word != 0)
    }
}
