ghost use Rattle.std.specs.Prelude.{◌≡◌, ◌≤◌, length};
ghost use Rattle.referee.specs.Words.{verdict_word};

use std::fmt;

/// What judge finds.
#[derive(Clone, Copy, PartialEq, Eq, Debug)]
pub enum Verdict {
    /// A fitting order exists.
    Serial,
    /// No fitting order exists.
    None,
    /// The budget did not suffice to tell.
    Spent,
}

impl Verdict {
    /// The verdict's word.
    pub fn word(self) -> &'static str
        ensures value { result.now ≡ verdict_word self }
        ensures short { length result.now ≤ 6 }
    {
        match self {
            Verdict::Serial => "serial",
            Verdict::None => "none",
            Verdict::Spent => "spent",
        }
    }
}

/// Prints the verdict's word.
impl fmt::Display for Verdict {
    ghost use Rattle.std.specs.Prelude.{Some};

    ghost output = { λ verdict. Some (verdict_word verdict) };

    fn fmt<W: fmt::Write>(&self, f: &mut fmt::Formatter<W>) -> fmt::Result {
        f.write_str(self.word())
    }
}

/// A verdict, with the steps that it took.
#[derive(Clone, Copy, PartialEq, Eq, Debug)]
pub struct Judgement {
    pub verdict: Verdict,
    pub steps: u32,
}

/// How a case stands: closed until it is opened, then unjudged until it is judged.
#[derive(Clone, Copy, PartialEq, Eq, Debug)]
pub enum State {
    Closed,
    Unjudged,
    Judged(Judgement),
}
