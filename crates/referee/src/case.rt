//! The case that a caller lends to the calls.
ghost use Rattle.std.specs.Prelude.{◌≡◌, true, length};
ghost use Rattle.order.specs.History.{count};
ghost use Rattle.saturation.specs.Recorded.{history_in};
ghost use Rattle.saturation.specs.Rooting.{PairsUpTo};
ghost use Rattle.referee.specs.Verdicts.{is_serial};
ghost use Rattle.referee.specs.Nodes.{AtNode};

use crate::state::State;
use arrayvec::ArrayVec;
use saturation::{Recorded, Stipulated};
use sets::EventSet;

/// A history of at most 256 events with the pairs that a rule keeps, at most 64 stipulations that stand, and a
/// verdict, if one stands. A new case is closed.
#[derive(Drop)]
pub struct Case {
    pub(crate) state: State,
    pub(crate) recorded: Recorded<256, 4>,
    /// The stipulations that stand, the latest last.
    pub(crate) stipulations: ArrayVec<(u16, u16), 64>,
    /// For each event those before it at the successful node, while the verdict is serial.
    pub(crate) node: [EventSet<4>; 256],
    ghost inside: { PairsUpTo (count (history_in recorded)) stipulations.items },
    ghost rows: { length node ≡ 256 },
    ghost shown: { ∥ (is_serial state ≡ true → AtNode (history_in recorded) stipulations.items node) ∥₁ },
}

impl Case {
    ghost use Rattle.referee.specs.Meaning.{pairs_of};

    /// The events with the stipulations that stand.
    pub(crate) fn stipulated(&self) -> Stipulated<'_, 256, 4>
        ensures record { result.record.now ≡ self.now.recorded }
        ensures pairs { result.pairs.now ≡ pairs_of self.now }
    {
        Stipulated {
            record: &self.recorded,
            pairs: self.stipulations.as_slice(),
        }
    }
}
