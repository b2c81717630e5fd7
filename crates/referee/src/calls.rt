//! Stipulations: made and lifted.
ghost use Rattle.std.specs.Prelude.{◌≡◌, true, false, [], cond, is_err, OnOk, IfErr};
ghost use Rattle.order.specs.Calls.{stipulate as stipulating, stipulated, lift as lifting, lifted, stipulate_answer, is_number};
ghost use Rattle.saturation.specs.Recorded.{history_in};
ghost use Rattle.referee.specs.Verdicts.{is_open, is_serial};
ghost use Rattle.referee.specs.Meaning.{meaning, reply, turn, TurnOn, pairs_of};

use crate::case::Case;
use crate::refusal::Refusal;
use crate::state::{Judgement, State, Verdict};
use history::WRITE;

impl Case {
    /// Has the write `first` come earlier than the write `second`, two writes of one star.
    pub fn stipulate(&mut self, first: u16, second: u16) -> Result<(), Refusal>
        ensures law { TurnOn (turn (stipulating first second) (reply (λ _. stipulated) result) []) (meaning self.old) (meaning self.new) }
        ensures same { is_err result ≡ true → self.new ≡ self.old }
    {
        self.check_open()?;
        self.check_pair(first, second)?;
        self.state = State::Unjudged;
        self.stipulations.push((first, second));
        Ok(())
    }

    /// Why the pair cannot be stipulated, if it cannot.
    fn check_pair(&self, first: u16, second: u16) -> Result<(), Refusal>
        ensures { reply (λ _. stipulated) result ≡ stipulate_answer (history_in self.now.recorded) (pairs_of self.now) first second }
    {
        if !self.has(first) || !self.has(second) {
            return Err(Refusal::NoEvent);
        }
        let a = self.recorded.event(first as usize - 1);
        let b = self.recorded.event(second as usize - 1);
        if a.kind != WRITE || b.kind != WRITE {
            return Err(Refusal::NoWrite);
        }
        if a.star != b.star {
            return Err(Refusal::OtherStar);
        }
        if first == second {
            return Err(Refusal::SameWrite);
        }
        if self.stipulations.is_full() {
            return Err(Refusal::Full);
        }
        Ok(())
    }

    /// Whether an event has this number.
    pub(crate) fn has(&self, number: u16) -> bool
        ensures { result ≡ is_number (history_in self.now.recorded) number }
    {
        number >= 1 && number as usize <= self.recorded.count()
    }

    /// Drops the latest stipulation, and answers its two numbers.
    pub fn lift(&mut self) -> Result<(u16, u16), Refusal>
        ensures law { TurnOn (turn lifting (reply (λ p. lifted p.0 p.1) result) []) (meaning self.old) (meaning self.new) }
        ensures same { is_err result ≡ true → self.new ≡ self.old }
    {
        self.check_open()?;
        let pair = self.stipulations.pop().ok_or(Refusal::NoneStands)?;
        self.state = State::Unjudged;
        Ok(pair)
    }

    /// Refuses where the case is closed.
    pub(crate) fn check_open(&self) -> Result<(), Refusal>
        ensures open { OnOk result (is_open self.now.state ≡ true) }
        ensures closed { IfErr result (λ e. (self.now.state ≡ State.Closed) × (e ≡ Refusal.Closed)) }
    {
        match self.state {
            State::Closed => Err(Refusal::Closed),
            _ => Ok(()),
        }
    }

    /// Refuses where the case is closed, or its verdict is not serial.
    pub(crate) fn check_serial(&self) -> Result<(), Refusal>
        ensures serial { OnOk result (is_serial self.now.state ≡ true) }
        ensures not_serial { IfErr result (λ e. (is_serial self.now.state ≡ false) × (e ≡ cond (is_open self.now.state) Refusal.NotSerial Refusal.Closed)) }
    {
        self.check_open()?;
        match self.state {
            State::Judged(
                Judgement {
                    verdict: Verdict::Serial,
                    ..
                },
            ) => Ok(()),
            _ => Err(Refusal::NotSerial),
        }
    }
}
