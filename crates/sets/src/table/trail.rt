//! What a table has, and how it is changed and taken back.
ghost use Rattle.std.specs.Prelude.{◌≡◌, ℕ, ◌+◌, ◌*◌, ◌<◌, ◌≤◌, Bool, true, false, ◌&&◌, ◌||◌, ◌==◌, length};
ghost use Rattle.sets.specs.Sets.{has, size};
ghost use Rattle.sets.specs.Rows.{in_row, in_rows, trail_len, undone, widened, RowsKept};

use super::Table;
use crate::set::EventSet;

impl<const N: usize, const W: usize, const T: usize> Table<N, W, T> {
    /// A table of empty rows, with nothing on its trail.
    pub fn new() -> Table<N, W, T>
        requires { (N ≤ 64 * W) × (W ≤ 1024) }
        ensures rows { (x y : ℕ) → in_row result x y ≡ false }
        ensures len { trail_len result ≡ 0 }
    {
        let empty = EventSet::new();
        Table {
            rows: [empty; N],
            at: [0; T],
            saved: [empty; T],
            len: 0,
        }
    }

    /// Empties every row and the trail.
    pub fn clear(&mut self)
        ensures rows { (x y : ℕ) → in_row self.new x y ≡ false }
        ensures len { trail_len self.new ≡ 0 }
    {
        self.rows.fill(EventSet::new());
        self.len = 0;
    }

    /// The row of `x`.
    pub fn row(&self, x: usize) -> EventSet<W>
        requires { x < N }
        ensures { (y : ℕ) → has result y ≡ in_row self.now x y }
    {
        self.rows[x]
    }

    /// The row of each event.
    pub fn rows(&self) -> &[EventSet<W>; N]
        ensures rows { (x y : ℕ) → in_rows result.now x y ≡ in_row self.now x y }
        ensures each { length result.now ≡ N }
    {
        &self.rows
    }

    /// Whether `y` is in the row of `x`.
    pub fn contains(&self, x: usize, y: usize) -> bool
        requires { (x < N) × (y < N) }
        ensures { result ≡ in_row self.now x y }
    {
        self.rows[x].contains(y)
    }

    /// How long the trail is: what `undo_to` takes.
    pub fn mark(&self) -> usize
        ensures { result ≡ trail_len self.now }
    {
        self.len
    }

    /// Adds more to the row of `x`, which the trail keeps as it was.
    fn put(&mut self, x: usize, more: &EventSet<W>)
        requires { (x < N) × (trail_len self.old < T) }
        ensures len { trail_len self.new ≡ trail_len self.old + 1 }
        ensures rows { (z y : ℕ) → in_row self.new z y ≡ (in_row self.old z y || (z == x && has more.now y)) }
        ensures back { RowsKept self.old self.new }
    {
        let row = self.rows[x];
        let mut wide = row;
        wide.union_with(more);
        let len = self.len;
        self.at[len] = x as u16;
        self.saved[len] = row;
        self.rows[x] = wide;
        self.len = len + 1;
    }

    /// Adds more to each row that is picked.
    pub fn widen(&mut self, which: &EventSet<W>, more: &EventSet<W>)
        requires inside { (x : ℕ) → has which.now x ≡ true → x < N }
        requires room { trail_len self.old + size which.now ≤ T }
        ensures len { trail_len self.new ≤ trail_len self.old + size which.now }
        ensures rows { in_row self.new ≡ widened (in_row self.old) (has which.now) (has more.now) }
        ensures back { RowsKept self.old self.new }
    {
        let mut rest = *which;
        while let Some(x) = rest.pop() {
            self.put(x, more);
        }
    }

    /// Takes back what was changed since the trail had this length.
    pub fn undo_to(&mut self, mark: usize)
        requires { mark ≤ trail_len self.old }
        ensures len { trail_len self.new ≡ mark }
        ensures rows { in_row self.new ≡ undone self.old mark }
        ensures back { RowsKept self.new self.old }
    {
        while self.len > mark {
            let last = self.len - 1;
            let row = self.saved[last];
            let x = self.at[last] as usize;
            self.rows[x] = row;
            self.len = last;
        }
    }
}
