//! The sources that a script holds, and the answers to lines about them.
ghost use Rattle.std.specs.Prelude.{◌≡◌, [], IsErrOf};
ghost use Rattle.scripts.specs.Piles.{season_held, events_held, held_under, offset_by, base_season, base_events, pile_season, pile_events};

use crate::answers::{print_questions, print_reading, print_writing};
use crate::bytes::parse_bytes;
use crate::line::Line;
use crate::pile::{Base, Name, Pile, Shift};
use crate::trouble::Trouble;
use history::{Either, Event, Join, Offset, Pick, Source, Table};
use packed::Packed;
use std::alloc::Global;

/// A source that a script holds: a table of records with its season, or packed bytes.
#[derive(Drop)]
pub enum Held {
    Records(u16, Vec<Event>),
    Bytes(Vec<u8>),
}

/// A source, or an offset of it.
pub type Shifted<S> = Either<S, Offset<S>>;

/// A source that a script holds, as a source.
pub type Named<'a> = Either<Table<'a>, Packed<'a>>;

/// A base, as a source.
pub type Based<'a> = Shifted<Named<'a>>;

/// A pile, as a source.
pub type Piled<'a> = Either<
    Shifted<Based<'a>>,
    Either<Pick<Based<'a>>, Join<Based<'a>, Based<'a>>>,
>;

fn shifted<S: Source>(below: S, shift: Option<Shift>) -> Shifted<S>
    ensures season { ⟦<Either<S, Offset<S>> as Source>⟧.season result ≡ S.season below }
    ensures events { ⟦<Either<S, Offset<S>> as Source>⟧.events result ≡ offset_by shift (S.events below) }
{
    match shift {
        None => Either::Left(below),
        Some(by) => Either::Right(Offset {
            below,
            sessions: by.sessions,
            revisions: by.revisions,
        }),
    }
}

impl Held {
    /// What is held, as a source.
    fn source(&self) -> Named<'_>
        ensures season { ⟦<Named<'static> as Source>⟧.season result ≡ season_held self.now }
        ensures events { ⟦<Named<'static> as Source>⟧.events result ≡ events_held self.now }
    {
        match self {
            Held::Records(season, events) => Either::Left(Table {
                season: *season,
                events: events.as_slice(),
            }),
            Held::Bytes(bytes) => Either::Right(Packed {
                bytes: bytes.as_slice(),
            }),
        }
    }

    /// One more record, in a table.
    fn push(&mut self, event: Event) -> Result<(), Trouble>
        ensures unfit { IsErrOf result Trouble.Unfit → self.new ≡ self.old }
    {
        match self {
            Held::Records(_, events) => Ok(events.push(event)?),
            Held::Bytes(_) => Err(Trouble::Unfit),
        }
    }
}

/// Two named sources, and which of them was named last.
#[derive(Drop)]
pub struct Shelf {
    pub a: Held,
    pub b: Held,
    pub newest: Name,
}

impl Shelf {
    /// No bytes under either name, and so season 0 and no events.
    pub fn new(heap: Global) -> Shelf
        ensures a { (season_held result.a ≡ 0) × (events_held result.a ≡ []) }
        ensures b { (season_held result.b ≡ 0) × (events_held result.b ≡ []) }
    {
        Shelf {
            a: Held::Bytes(Vec::new(heap)),
            b: Held::Bytes(Vec::new(heap)),
            newest: Name::A,
        }
    }

    fn held(&self, name: Name) -> &Held
        ensures { result.now ≡ held_under self.now name }
    {
        match name {
            Name::A => &self.a,
            Name::B => &self.b,
        }
    }

    fn base(&self, base: Base) -> Based<'_>
        ensures season { ⟦<Based<'static> as Source>⟧.season result ≡ base_season self.now base }
        ensures events { ⟦<Based<'static> as Source>⟧.events result ≡ base_events self.now base }
    {
        shifted(self.held(base.name).source(), base.shift)
    }

    /// The pile as one source.
    pub fn pile(&self, pile: Pile) -> Piled<'_>
        ensures season { ⟦<Piled<'static> as Source>⟧.season result ≡ pile_season self.now pile }
        ensures events { ⟦<Piled<'static> as Source>⟧.events result ≡ pile_events self.now pile }
    {
        match pile {
            Pile::Offset(shift, base) => Either::Left(shifted(self.base(base), shift)),
            Pile::Pick(star, base) => {
                let below = self.base(base);
                Either::Right(Either::Left(Pick { below, star }))
            }
            Pile::Join(first, second) => {
                let first = self.base(first);
                let second = self.base(second);
                Either::Right(Either::Right(Join { first, second }))
            }
        }
    }

    fn put(&mut self, name: Name, held: Held) {
        match name {
            Name::A => self.a = held,
            Name::B => self.b = held,
        }
        self.newest = name;
    }

    /// Does what a line says, and prints the answer; a line that does not fit changes nothing.
    pub fn answer(&mut self, rt: &HostRuntime, line: Line<'_>) -> Result<(), Trouble>
        ensures unfit { IsErrOf result Trouble.Unfit → self.new ≡ self.old }
    {
        match line {
            Line::Table(name, season) => {
                self.put(name, Held::Records(season, Vec::new(rt.alloc())))
            }
            // No function that lends the newest source: of what is left there its callers would know nothing.
            Line::Event(event) => match self.newest {
                Name::A => self.a.push(event)?,
                Name::B => self.b.push(event)?,
            },
            Line::Packed(name, word) => {
                let bytes = parse_bytes(rt.alloc(), word)?;
                self.put(name, Held::Bytes(bytes))
            }
            Line::Read(word) => {
                return print_reading(rt, parse_bytes(rt.alloc(), word)?.as_slice());
            }
            Line::Questions(pile, number) => return print_questions(rt, &self.pile(pile), number),
            Line::Write(pile, length) => return print_writing(rt, &self.pile(pile), length),
        }
        println!(rt; "ok")?;
        Ok(())
    }
}
