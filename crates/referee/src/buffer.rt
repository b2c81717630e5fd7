//! Where show writes its numbers.
ghost use Rattle.std.specs.Prelude.{◌≡◌, ℕ, List, length, slice_set};

// a trait of our own: std's `AsMut` says nothing of what it lends, and `AsSlice` lends for reading only
/// A buffer of numbers, of whatever length; an implementation says by `numbers` what it holds.
pub trait Buffer {
    ghost numbers: { Self → List ℕ };

    /// How many numbers it holds.
    fn len(&self) -> usize
        ensures { result ≡ length (numbers self.now) };

    /// Puts a number at a place, from 0; past the end it changes nothing.
    fn put(&mut self, at: usize, number: u16)
        ensures { numbers self.new ≡ slice_set (numbers self.old) at number };
}

impl<const L: usize> Buffer for [u16; L] {
    ghost numbers = { λ b. b };

    fn len(&self) -> usize {
        self[..].len()
    }

    fn put(&mut self, at: usize, number: u16) {
        if at < self[..].len() {
            self[at] = number;
        }
    }
}

impl Buffer for Vec<u16> {
    ghost numbers = { λ b. b.items };

    fn len(&self) -> usize {
        self.len()
    }

    fn put(&mut self, at: usize, number: u16) {
        if at < self.len() {
            self[at] = number;
        }
    }
}
