//! Judging a case.
ghost use Rattle.std.specs.Prelude.{◌≡◌, ◌<◌, true, [], is_err};
ghost use Rattle.order.specs.Calls.{judge as judging, judged, Judges};
ghost use Rattle.saturation.specs.Recorded.{history_in};
ghost use Rattle.referee.specs.Meaning.{meaning, reply, turn, TurnOn, pairs_of};
ghost use Rattle.referee.specs.Verdicts.{verdict_of};
ghost use Rattle.referee.specs.Judging.{Judged};

use crate::case::Case;
use crate::refusal::Refusal;
use crate::state::{Judgement, State, Verdict};
use search::{Progress, Search};

impl Case {
    /// Says whether a fitting order exists, if that takes no more steps than the budget; the verdict stays with the case.
    pub fn judge(&mut self, budget: u32) -> Result<Judgement, Refusal>
        ensures law { TurnOn (turn (judging budget) (reply (λ j. judged (verdict_of j.verdict) j.steps) result) []) (meaning self.old) (meaning self.new) }
        ensures same { is_err result ≡ true → self.new ≡ self.old }
    {
        self.check_open()?;
        if budget == 0 {
            return Err(Refusal::NoBudget);
        }
        let found = self.decide(budget);
        self.state = State::Judged(found);
        Ok(found)
    }

    // Not inlined: whoever called it would pay for the size of a search at each entry.
    /// Searches, within a budget, and keeps what is before what at the node where the search succeeds.
    #[inline(never)]
    fn decide(&mut self, budget: u32) -> Judgement
        requires { 0 < budget }
        ensures { Judged budget self.old self.new result }
    {
        let mut search: Search<256, 4, 32640> = Search::idle();
        search.restart(self.stipulated());
        let verdict = match search.run(budget) {
            Progress::Succeeded => Verdict::Serial,
            Progress::Failed => Verdict::None,
            Progress::Running => Verdict::Spent,
        };
        self.state = State::Unjudged;
        self.node = search.before_rows();
        Judgement {
            verdict,
            steps: search.steps(),
        }
    }
}
