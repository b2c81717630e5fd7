//! How the facts are filled in.
ghost use Rattle.std.specs.Prelude.{◌≡◌, ℕ, ◌*◌, ◌<◌, ◌≤◌, Bool, true, false, ◌&&◌, ◌||◌, slice_set};
ghost use Rattle.sets.specs.Rows.{PutIn};
ghost use Rattle.saturation.specs.Ties.{others_of, mates_of, takers_of, from_of};
ghost use Rattle.saturation.specs.Laws.{Blank};

use super::{Facts, Ties};
use sets::EventSet;

impl<const N: usize, const W: usize> Facts<N, W> {
    /// The facts of so many events of which nothing is known yet.
    pub fn new(count: usize) -> Facts<N, W>
        requires { (count ≤ N) × (N ≤ 64 * W) × (W ≤ 1024) }
        ensures count { result.count ≡ count }
        ensures blank { Blank result }
    {
        let none = Ties {
            others: EventSet::new(),
            mates: EventSet::new(),
            takers: EventSet::new(),
            from: 0,
        };
        Facts {
            ties: [none; N],
            count,
        }
    }

    // Three functions: each keeps another invariant of `Facts`, which `note` would have to keep in place.

    /// Says that `q` is another write of the star of the write `w`.
    pub fn add_mate(&mut self, w: usize, q: usize)
        requires { (w < self.old.count) × (q < self.old.count) }
        ensures mates { PutIn (mates_of self.old.ties) (mates_of self.new.ties) w q }
        ensures rest { (others_of self.new.ties ≡ others_of self.old.ties) × (takers_of self.new.ties ≡ takers_of self.old.ties) }
        ensures same { (from_of self.new.ties ≡ from_of self.old.ties) × (self.new.count ≡ self.old.count) }
    {
        self.ties[w].mates.insert(q);
    }

    /// Says that the read `r` takes from the write `w`.
    pub fn add_taker(&mut self, w: usize, r: usize)
        requires { (w < self.old.count) × (r < self.old.count) }
        ensures takers { PutIn (takers_of self.old.ties) (takers_of self.new.ties) w r }
        ensures source { from_of self.new.ties ≡ slice_set (from_of self.old.ties) r w }
        ensures rest { (others_of self.new.ties ≡ others_of self.old.ties) × (mates_of self.new.ties ≡ mates_of self.old.ties) }
        ensures same { self.new.count ≡ self.old.count }
    {
        self.ties[w].takers.insert(r);
        self.ties[r].from = w as u16;
    }

    /// Says that the read `r` is of the star of the write `w`, and takes from another write.
    pub fn add_other(&mut self, w: usize, r: usize)
        requires { (w < self.old.count) × (r < self.old.count) }
        ensures others { PutIn (others_of self.old.ties) (others_of self.new.ties) w r }
        ensures rest { (mates_of self.new.ties ≡ mates_of self.old.ties) × (takers_of self.new.ties ≡ takers_of self.old.ties) }
        ensures same { (from_of self.new.ties ≡ from_of self.old.ties) × (self.new.count ≡ self.old.count) }
    {
        self.ties[w].others.insert(r);
    }
}
