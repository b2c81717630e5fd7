use crate::*;
use std::process::Abort;
use std::test::Fail;

// As in the tests of `report`: a test can lend nothing to another crate.
/// The front of the buffer is the text, and the rest stays.
fn check_text(rt: &impl Abort, bytes: &[u8], text: &[u8]) -> Result<(), Fail> {
    let mut buffer = [7; 1024];
    let used = report(bytes, &mut buffer).ok().ok_or("refused")?;
    assert_eq!(rt; used, text.len());
    for (i, b) in buffer.iter().enumerate() {
        let expected = if i < text.len() { text[i] } else { 7 };
        assert_eq!(rt; *b, expected);
    }
    Ok(())
}

/// A read of what another session writes after it found the starting entry: the one order has the two
/// of that session first.
#[test]
fn an_order_and_the_refusal(rt: HostRuntime) -> Result<(), Fail> {
    let example = [
        0x17, 0xef, 0x01, 0x80, 0x30, 0x01, 0xc2, 0x18, 0x00, 0x11, 0x0c, 0x00, 0x70,
    ];
    check_text(
        &rt,
        &example,
        b"season 2031 events 3\nverdict serial steps 1\norder 2 3 1\n",
    )?;
    check_text(&rt, &example[0..12], b"fault file 4 place 12\n")?;
    let mut short = [7; 1023];
    assert_eq!(rt;
        report(&example, &mut short),
        Err(ReportRefusal::ShortBuffer)
    );
    assert!(rt; short[0] == 7 && short[1022] == 7);
    Ok(())
}

/// A session writes a star, and then finds its starting entry: no order has both.
#[test]
fn no_order(rt: HostRuntime) -> Result<(), Fail> {
    let missed = [0x17, 0xef, 0x01, 0x40, 0x00, 0x00, 0x40, 0x00, 0x00, 0x00];
    check_text(
        &rt,
        &missed,
        b"season 2031 events 2\nverdict none steps 1\n",
    )
}

/// The second of two events writes what the first wrote.
#[test]
fn a_fault_of_the_history(rt: HostRuntime) -> Result<(), Fail> {
    let twice = [0x17, 0xef, 0x01, 0x40, 0x00, 0x00, 0x62, 0x00, 0x00, 0x20];
    check_text(&rt, &twice, b"fault history 14 place 2\n")
}

/// Without events the line with the order has the word alone.
#[test]
fn no_events(rt: HostRuntime) -> Result<(), Fail> {
    let none = [0x17, 0xef, 0x00, 0x00];
    check_text(
        &rt,
        &none,
        b"season 2031 events 0\nverdict serial steps 1\norder\n",
    )
}
