//! The words of a line.

use crate::trouble::Unfit;
use std::iter::Peekable;
use std::str::{FromStr, Split};

/// The words of a line that are still to be read.
#[derive(Drop)]
pub struct Words<'a> {
    rest: Peekable<Split<'a, char>>,
}

impl<'a> Words<'a> {
    /// The words between the spaces of a line.
    pub fn of(line: &'a str) -> Words<'a> {
        Words {
            rest: line.split(' ').peekable(),
        }
    }

    /// Reads the next word.
    pub fn word(&mut self) -> Result<&'a str, Unfit> {
        self.rest.next().ok_or(Unfit)
    }

    /// Reads the next word if it is this one, and says whether it was.
    pub fn take(&mut self, word: &str) -> bool {
        self.rest.next_if(|next| *next == word).is_some()
    }

    /// Reads the next word as a value.
    pub fn value<T: FromStr>(&mut self) -> Result<T, Unfit>
    where
        T::Err: Drop,
    {
        self.word()?.parse().map_err(|_| Unfit)
    }

    /// Refuses words that are left.
    pub fn end(mut self) -> Result<(), Unfit> {
        match self.rest.next() {
            Some(_) => Err(Unfit),
            None => Ok(()),
        }
    }
}
