//! Lines about a case.

use scripts::{Pile, Unfit, Words};
use std::str::FromStr;

/// A rule of order, by its name.
#[derive(Clone, Copy, PartialEq, Eq, Debug)]
pub enum Ruling {
    Strict,
    Star,
    Lag,
}

impl FromStr for Ruling {
    type Err = Unfit;

    fn from_str(word: &str) -> Result<Ruling, Unfit> {
        match word {
            "strict" => Ok(Ruling::Strict),
            "star" => Ok(Ruling::Star),
            "lag" => Ok(Ruling::Lag),
            _ => Err(Unfit),
        }
    }
}

/// A preference, by its name.
#[derive(Clone, Copy, PartialEq, Eq, Debug)]
pub enum Preferred {
    ByNumber,
    ByStar,
    BySession,
}

impl FromStr for Preferred {
    type Err = Unfit;

    fn from_str(word: &str) -> Result<Preferred, Unfit> {
        match word {
            "by-number" => Ok(Preferred::ByNumber),
            "by-star" => Ok(Preferred::ByStar),
            "by-session" => Ok(Preferred::BySession),
            _ => Err(Unfit),
        }
    }
}

/// A line about the case, or else about sources; show has a buffer of a length.
#[derive(Clone, Copy, PartialEq, Eq, Debug)]
pub enum Line<'a> {
    Open(Ruling, Pile),
    Stipulate(u16, u16),
    Lift,
    Judge(u32),
    Show(Preferred, usize),
    Forced(u16, u16),
    Clash,
    Sources(scripts::Line<'a>),
}

impl<'a> TryFrom<&'a str> for Line<'a> {
    type Error = Unfit;

    fn try_from(text: &'a str) -> Result<Line<'a>, Unfit> {
        let mut words = Words::of(text);
        let line = match words.word()? {
            "open" => Line::Open(words.value()?, words.pile()?),
            "stipulate" => Line::Stipulate(words.value()?, words.value()?),
            "lift" => Line::Lift,
            "judge" => Line::Judge(words.value()?),
            "show" => Line::Show(words.value()?, words.value()?),
            "forced" => Line::Forced(words.value()?, words.value()?),
            "clash" => Line::Clash,
            _ => return Ok(Line::Sources(scripts::Line::try_from(text)?)),
        };
        words.end()?;
        Ok(line)
    }
}
