ghost use Rattle.std.specs.Prelude.{◌≡◌, Some};
ghost use Rattle.history.specs.Limits.{within_limits};
ghost use Rattle.history.specs.Texts.{event_text};

use std::fmt;

// Numbers, and no enum: a source may hold events of any kind.
/// The kind of an event that read a star's entry.
pub const READ: u8 = 0;

/// The kind of an event that wrote a new revision of a star's entry.
pub const WRITE: u8 = 1;

/// One record of a history: in `session`, the entry of `star` was read or written at `revision`.
///
/// A read of revision 0 found the star's starting entry. Any numbers can stand in a record; which of
/// them make sense is for whoever opens a case or writes a file to say.
#[derive(Clone, Copy, PartialEq, Eq, Debug, Default)]
pub struct Event {
    /// `READ` or `WRITE` in a case, and any number in a source: a narrower type would ask more of whoever makes one.
    pub kind: u8,
    pub session: u8,
    pub star: u8,
    pub revision: u16,
}

/// Prints the four numbers with points between them.
impl fmt::Display for Event {
    ghost output = { λ e. Some (event_text e) };

    fn fmt<W: fmt::Write>(&self, f: &mut fmt::Formatter<W>) -> fmt::Result {
        let Event {
            kind,
            session,
            star,
            revision,
        } = *self;
        write!(f, "{kind}.{session}.{star}.{revision}")
    }
}

/// What a rule sees of an event: what was done, and to which star's entry.
#[derive(Clone, Copy, PartialEq, Eq, Debug)]
pub struct Access {
    pub kind: u8,
    pub star: u8,
}

impl Event {
    /// Whether the event fits a case and a packed file: a kind of at most 1, a session of at most 15, a star of at
    /// most 63 and a revision of at most 16,383.
    pub fn fits(self) -> bool
        ensures { result ≡ within_limits self }
    {
        self.kind <= 1 && self.session <= 15 && self.star <= 63 && self.revision <= 16383
    }

    /// What was done, and to which star's entry.
    pub fn access(self) -> Access
        ensures kind { result.kind ≡ self.kind }
        ensures star { result.star ≡ self.star }
    {
        Access {
            kind: self.kind,
            star: self.star,
        }
    }
}
