ghost use Rattle.std.specs.Prelude.{◌≡◌, length};
ghost use Rattle.history.specs.Lists.{numbered};

use crate::*;

/// The last event of any source.
fn last<S: Source>(source: &S) -> Option<Event>
    ensures { result ≡ numbered (S.Source.events source.now) (length (S.Source.events source.now)) }
{
    source.event(source.count())
}

fn event(kind: u8, session: u8, star: u8, revision: u16) -> Event {
    Event {
        kind,
        session,
        star,
        revision,
    }
}

fn access(kind: u8, star: u8) -> Access {
    event(kind, 0, star, 0).access()
}

fn candidate(number: u16, event: Event) -> Candidate {
    Candidate { number, event }
}

/// A join of a pick of an offset of a table with another offset.
#[test]
fn a_pile_of_three_layers(rt: HostRuntime) {
    let ours = [
        event(1, 0, 3, 7),
        event(0, 1, 4, 0),
        event(1, 250, 3, 65530),
    ];
    let theirs = [event(0, 2, 3, 0), event(0, 2, 9, 1)];
    let table = Table {
        season: 2031,
        events: &ours,
    };
    let moved = Offset {
        below: table,
        sessions: 10,
        revisions: 10,
    };
    let first = Pick {
        below: moved,
        star: 3,
    };
    assert_eq!(rt; last(&first), Some(event(1, 255, 3, 65535)));
    let other = Table {
        season: 2031,
        events: &theirs,
    };
    let second = Offset {
        below: other,
        sessions: 1,
        revisions: 100,
    };
    let pile = Join { first, second };
    assert_eq!(rt; pile.season(), 2031);
    assert_eq!(rt; pile.count(), 4);
    assert_eq!(rt; pile.event(0), None);
    assert_eq!(rt; pile.event(1), Some(event(1, 10, 3, 17)));
    assert_eq!(rt; pile.event(3), Some(event(0, 3, 3, 0)));
    assert_eq!(rt; last(&&pile), Some(event(0, 3, 9, 101)));
    assert_eq!(rt; pile.event(5), None);
    assert_eq!(rt; pile.iter().count(), 4);
    assert_eq!(rt; pile.iter().last(), Some(event(0, 3, 9, 101)));
}

/// Two events, gone over as long as there is one, and as many as there are.
#[test]
fn both_ways_over_a_source(rt: HostRuntime) {
    let records = [event(1, 0, 3, 7), event(0, 1, 4, 0)];
    let table = Table {
        season: 2031,
        events: &records,
    };
    let mut events = table.iter();
    assert_eq!(rt; events.next(), Some(event(1, 0, 3, 7)));
    assert_eq!(rt; events.next(), Some(event(0, 1, 4, 0)));
    assert_eq!(rt; events.next(), None);
    let mut counted = table.iter_counted();
    assert_eq!(rt; counted.next(), Some(event(1, 0, 3, 7)));
    assert_eq!(rt; counted.next(), Some(event(0, 1, 4, 0)));
    assert_eq!(rt; counted.next(), None);
}

#[test]
fn seasons_rules_and_preferences(rt: HostRuntime) {
    let first = Table {
        season: 2031,
        events: &[],
    };
    let second = Table {
        season: 2032,
        events: &[],
    };
    let apart = Join { first, second };
    assert_eq!(rt; apart.season(), 0);
    assert!(rt; Strict.keeps(access(WRITE, 1), access(READ, 2)));
    assert!(rt; !Star.keeps(access(WRITE, 1), access(READ, 2)));
    assert!(rt; !Lag.keeps(access(WRITE, 1), access(READ, 2)));
    assert!(rt; Lag.keeps(access(WRITE, 1), access(READ, 1)));
    assert!(rt; Lag.keeps(access(READ, 1), access(WRITE, 2)));
    let low = event(0, 5, 1, 0);
    let high = event(0, 4, 2, 0);
    assert!(rt; ByNumber.prefers(candidate(1, high), candidate(2, low)));
    assert!(rt; ByStar.prefers(candidate(2, low), candidate(1, high)));
    assert!(rt; BySession.prefers(candidate(2, high), candidate(1, low)));
    let mixed: Either<ByStar, BySession> = Either::Right(BySession);
    assert!(rt; !mixed.prefers(candidate(1, low), candidate(2, high)));
}
