use crate::{Packed, check, write};
use history::{Event, Source, Table};

const FILE: &[u8; 13] = b"\x17\xEF\x01\x80\x30\x01\xC2\x18\x00\x11\x0C\x00\x70";

// As in the tests of `history`: a test can lend nothing to another crate.
fn event(kind: u8, session: u8, star: u8, revision: u16) -> Event {
    Event {
        kind,
        session,
        star,
        revision,
    }
}

/// Season and count, or number and place of the fault.
fn read(bytes: &[u8]) -> Result<(u16, u16), (u8, usize)> {
    check(bytes)
        .map(|header| (header.season, header.count))
        .map_err(|fault| (fault.number(), fault.place()))
}

#[test]
fn reads(rt: HostRuntime) {
    assert_eq!(rt; read(&[0x17, 0xEF, 0x00, 0x00]), Ok((2031, 0)));
    assert_eq!(rt; read(&[0x17, 0xEF, 0x00]), Err((1, 3)));
    assert_eq!(rt; read(&[0x27, 0xEF, 0x00, 0x00]), Err((2, 0)));
    assert_eq!(rt; read(&[0x17, 0xEF, 0x80, 0x80]), Err((3, 16)));
    assert_eq!(rt; read(&[0x17, 0xEF, 0x80, 0x00]), Err((4, 4)));
    assert_eq!(rt; read(&[0x17, 0xEF, 0x00, 0x01]), Err((5, 31)));
    assert_eq!(rt; read(FILE), Ok((2031, 3)));
    let file = Packed { bytes: FILE };
    assert_eq!(rt; file.event(0), None);
    assert_eq!(rt; file.event(1), Some(event(0, 0, 3, 7)));
    assert_eq!(rt; file.event(2), Some(event(0, 1, 3, 0)));
    assert_eq!(rt; file.event(3), Some(event(1, 1, 3, 7)));
    assert_eq!(rt; file.event(4), None);
    let refused = Packed { bytes: &[0x27] };
    assert_eq!(rt; (refused.season(), refused.count()), (0, 0));
}

/// The answer, or the refusal's number, of writing into the first `room` of 16 bytes of 0xAA, and
/// these bytes after.
fn wrote(season: u16, events: &[Event], room: usize) -> (Result<usize, u8>, [u8; 16]) {
    let mut buffer = [0xAA; 16];
    let answer = write(&Table { season, events }, &mut buffer[0..room.min(16)]);
    (answer.map_err(|refusal| refusal.number()), buffer)
}

#[test]
fn writes(rt: HostRuntime) {
    let events = [event(0, 0, 3, 7), event(0, 1, 3, 0), event(1, 1, 3, 7)];
    let mut file = [0xAA; 16];
    file[0..13].copy_from_slice(FILE);
    assert_eq!(rt; wrote(2031, &events, 16), (Ok(13), file));
    let kept = [0xAA; 16];
    assert_eq!(rt; wrote(4096, &[event(2, 0, 0, 0); 257], 16), (Err(31), kept));
    assert_eq!(rt; wrote(4096, &[event(0, 0, 0, 16384)], 6), (Err(32), kept));
    assert_eq!(rt; wrote(4096, &events, 12), (Err(33), kept));
    assert_eq!(rt; wrote(4095, &events, 12), (Err(34), kept));
}
