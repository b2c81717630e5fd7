//! What a line says of sources and the layers over them.
ghost use Rattle.std.specs.Prelude.{◌≡◌};

use crate::trouble::Unfit;
use crate::words::Words;
use history::Event;
use std::str::FromStr;

/// One of the two sources that a script holds.
#[derive(Clone, Copy, PartialEq, Eq, Debug)]
pub enum Name {
    A,
    B,
}

impl FromStr for Name {
    ghost use Rattle.scripts.specs.Words.{IsNamed};

    type Err = Unfit;

    ghost from_str_gives = { IsNamed };

    fn from_str(word: &str) -> Result<Name, Unfit> {
        match word {
            "a" => Ok(Name::A),
            "b" => Ok(Name::B),
            _ => Err(Unfit),
        }
    }
}

/// What an offset adds to sessions and to revisions.
#[derive(Clone, Copy, PartialEq, Eq, Debug)]
pub struct Shift {
    pub sessions: u8,
    pub revisions: u16,
}

/// A source by its name, or an offset of it.
#[derive(Clone, Copy, PartialEq, Eq, Debug)]
pub struct Base {
    pub shift: Option<Shift>,
    pub name: Name,
}

/// A layer over the sources that a script holds, or none.
#[derive(Clone, Copy, PartialEq, Eq, Debug)]
pub enum Pile {
    Offset(Option<Shift>, Base),
    Pick(u8, Base),
    Join(Base, Base),
}

impl Words<'_> {
    /// Reads `offset SESSIONS REVISIONS`, if that comes next.
    pub fn shift(&mut self) -> Result<Option<Shift>, Unfit> {
        if !self.take("offset") {
            return Ok(None);
        }
        Ok(Some(Shift {
            sessions: self.value()?,
            revisions: self.value()?,
        }))
    }

    /// Reads a name, with or without an offset.
    pub fn base(&mut self) -> Result<Base, Unfit> {
        Ok(Base {
            shift: self.shift()?,
            name: self.value()?,
        })
    }

    /// Reads a base, with or without a layer.
    pub fn pile(&mut self) -> Result<Pile, Unfit> {
        if self.take("pick") {
            Ok(Pile::Pick(self.value()?, self.base()?))
        } else if self.take("join") {
            Ok(Pile::Join(self.base()?, self.base()?))
        } else {
            Ok(Pile::Offset(self.shift()?, self.base()?))
        }
    }

    /// Reads an event's four numbers.
    pub fn event(&mut self) -> Result<Event, Unfit> {
        Ok(Event {
            kind: self.value()?,
            session: self.value()?,
            star: self.value()?,
            revision: self.value()?,
        })
    }
}
