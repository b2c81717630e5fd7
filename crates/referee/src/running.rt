//! Runs of calls.
ghost use Rattle.std.specs.Prelude.{◌≡◌, false};
ghost use Rattle.referee.specs.Meaning.{meaning, TurnOn};
ghost use Rattle.referee.specs.Preferring.{as_preference};
ghost use Rattle.referee.specs.Entries.{turn_by, wrote};
ghost use Rattle.referee.specs.Runs.{RunLaw};

use crate::buffer::Buffer;
use crate::case::Case;
use crate::entry::{Answer, Call, Entry};
use crate::refusal::Refusal;
use history::{Preference, Rule, Source};
use opening::HistoryFault;

impl Case {
    /// Makes a call, and answers it; a show writes to the buffer.
    fn make<P: Preference, B: Buffer>(
        &mut self,
        call: &Call<P>,
        buffer: &mut B,
    ) -> Result<Answer, Refusal>
        ensures law { TurnOn (turn_by (as_preference P.Preference.prefers P.Preference.lawful) call.now (B.Buffer.numbers buffer.old) (Some result) (B.Buffer.numbers buffer.new)) (meaning self.old) (meaning self.new) }
        ensures stays { wrote (Some result) ≡ false → buffer.new ≡ buffer.old }
    {
        match call {
            Call::Stipulate(first, second) => {
                self.stipulate(*first, *second)?;
                Ok(Answer::Stipulated)
            }
            Call::Lift => {
                let (first, second) = self.lift()?;
                Ok(Answer::Lifted(first, second))
            }
            Call::Judge(budget) => Ok(Answer::Judged(self.judge(*budget)?)),
            Call::Show(preference) => Ok(Answer::Shown(self.show(preference, buffer)?)),
        }
    }

    /// Opens the case, and then makes each call in turn on the case that the one before left.
    ///
    /// A fault of opening leaves the case and all entries as they were. Otherwise each entry has its answer afterwards, and
    /// each buffer that a show wrote to has the order at its front.
    pub fn run<S: Source, R: Rule, P: Preference, B: Buffer>(
        &mut self,
        source: &S,
        rule: &R,
        entries: &mut [Entry<P, B>],
    ) -> Result<(), HistoryFault>
        ensures { RunLaw (as_preference P.Preference.prefers P.Preference.lawful) B.Buffer.numbers (S.Source.events source.now) (R.Rule.keeps rule.now) self.old entries.old self.new entries.new result }
    {
        self.open(source, rule)?;
        for entry in entries.iter_mut() {
            entry.answer = Some(self.make(&entry.call, &mut entry.buffer));
        }
        Ok(())
    }
}
