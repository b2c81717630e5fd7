//! Lines about sources.

use crate::pile::{Name, Pile};
use crate::trouble::Unfit;
use crate::words::Words;
use history::Event;

/// A line about sources.
#[derive(Clone, Copy, PartialEq, Eq, Debug)]
pub enum Line<'a> {
    /// Under a name stands a table of a season, with no events yet.
    Table(Name, u16),
    /// One more event in the table that was named last.
    Event(Event),
    /// Under a name stand packed bytes, in hexadecimal digits.
    Packed(Name, &'a str),
    /// What do packed bytes mean?
    Read(&'a str),
    /// What are a pile's season and count, and its event with a number?
    Questions(Pile, u16),
    /// What does writing a pile to a buffer of a length leave there?
    Write(Pile, usize),
}

impl<'a> TryFrom<&'a str> for Line<'a> {
    type Error = Unfit;

    fn try_from(text: &'a str) -> Result<Line<'a>, Unfit> {
        let mut words = Words::of(text);
        let line = match words.word()? {
            "table" => Line::Table(words.value()?, words.value()?),
            "event" => Line::Event(words.event()?),
            "packed" => Line::Packed(words.value()?, words.word()?),
            "read" => Line::Read(words.word()?),
            "questions" => Line::Questions(words.pile()?, words.value()?),
            "write" => Line::Write(words.pile()?, words.value()?),
            _ => return Err(Unfit),
        };
        words.end()?;
        Ok(line)
    }
}
