use crate::*;
use std::test::Fail;

#[test]
fn a_pair_line_at_the_front(rt: HostRuntime) -> Result<(), Fail> {
    let text = pair_line("season ", 0, " place ", 18_446_744_073_709_551_615);
    let expected = b"season 0 place 18446744073709551615\n";
    let mut buffer = [7; 1024];
    let used = copy_to_front(&text, &mut buffer);
    assert_eq!(rt; used, expected.len());
    assert!(rt; buffer[..used] == expected[..]);
    assert!(rt; buffer[used..].iter().all(|b| *b == 7));
    Ok(())
}
