//! What memory suffices for.

use crate::{Base, Line, Name, Pile, Shelf, Trouble, parse_bytes};
use history::{Event, Source};

#[test]
fn digits_of_either_case_are_bytes(rt: HostRuntime) -> Result<(), Trouble> {
    let bytes = parse_bytes(rt.alloc(), "00aFF1")?;
    assert_eq!(rt; bytes.as_slice(), [0x00, 0xaf, 0xf1].as_slice());
    Ok(())
}

#[test]
fn a_record_stands_in_the_newest_table(rt: HostRuntime) -> Result<(), Trouble> {
    let event = Event {
        kind: 0,
        session: 1,
        star: 2,
        revision: 3,
    };
    let mut shelf = Shelf::new(rt.alloc());
    shelf.answer(&rt, Line::Table(Name::B, 2031))?;
    shelf.answer(&rt, Line::Event(event))?;
    let base = Base {
        shift: None,
        name: Name::B,
    };
    let picked = shelf.pile(Pile::Pick(2, base));
    assert_eq!(rt; picked.event(1), Some(event));
    Ok(())
}
