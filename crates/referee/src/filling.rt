//! Cases, new and opened.
ghost use Rattle.std.specs.Prelude.{◌≡◌, true, is_err};
ghost use Rattle.referee.specs.Meaning.{closed, meaning};
ghost use Rattle.referee.specs.Opens.{Opens};

use crate::case::Case;
use crate::state::State;
use arrayvec::ArrayVec;
use history::{Rule, Source, Strict};
use opening::{HistoryFault, check_source};
use saturation::Recorded;
use sets::EventSet;

impl Case {
    /// A case that is closed.
    pub fn new() -> Case
        ensures { meaning result ≡ closed }
    {
        Case {
            state: State::Closed,
            recorded: Recorded::new(ArrayVec::new(), &Strict),
            stipulations: ArrayVec::new(),
            node: [EventSet::new(); 256],
        }
    }

    // Not inlined: whoever called it would hold what it needs, 24 KiB, while it searches.
    /// Opens the case with the events that a source means at this moment and the pairs of them that a rule keeps: no
    /// stipulation stands, and it is unjudged. A fault leaves the case as it was.
    #[inline(never)]
    pub fn open<S: Source, R: Rule>(&mut self, source: &S, rule: &R) -> Result<(), HistoryFault>
        ensures opens { Opens (S.Source.events source.now) (R.Rule.keeps rule.now) self.new result }
        ensures same { is_err result ≡ true → self.new ≡ self.old }
    {
        let events = check_source(source)?;
        self.recorded = Recorded::new(events, rule);
        self.stipulations.clear();
        self.state = State::Unjudged;
        Ok(())
    }
}
