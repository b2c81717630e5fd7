//! What the stipulations that stand force.
ghost use Rattle.std.specs.Prelude.{◌≡◌};
ghost use Rattle.referee.specs.Meaning.{meaning};
ghost use Rattle.referee.specs.Looking.{ForcedIs, ClashIs};

use crate::case::Case;
use crate::refusal::Refusal;

impl Case {
    // An answer in an answer: a closed case refuses the question, and each of the two says something else.
    /// Whether the event `a` is before the event `b` with the stipulations that stand.
    pub fn forced(&self, a: u16, b: u16) -> Result<bool, Refusal>
        ensures { ForcedIs (meaning self.now) a b result }
    {
        self.check_open()?;
        if !self.has(a) || !self.has(b) {
            return Err(Refusal::NoEvent);
        }
        Ok(closure::forced(self.stipulated(), a as usize - 1, b as usize - 1))
    }

    /// The lowest event that is before itself with the stipulations that stand, if there is one.
    pub fn clash(&self) -> Result<Option<u16>, Refusal>
        ensures { ClashIs (meaning self.now) result }
    {
        self.check_open()?;
        match closure::clash(self.stipulated()) {
            Some(x) => Ok(Some(x as u16 + 1)),
            None => Ok(None),
        }
    }
}
