//! What the programs that print a report share: a packed history from standard input, its report to standard output.

#![tactic(auto)]

ghost use Rattle.std.specs.Prelude.{◌≤◌, IfOk};

use arrayvec::ArrayVec;
use report::ReportRefusal;
use std::io;
use std::io::{Read, Write};

/// Reads standard input up to 805 bytes. The longest packed history has 804; one more shows that the input is longer.
fn read_history(rt: &HostRuntime) -> io::Result<ArrayVec<u8, 805>> {
    let mut bytes = ArrayVec::from([0; 805]);
    let mut got = 0;
    while got < bytes.len() {
        let n = rt.stdin().read(&mut bytes[got..])?;
        if n == 0 {
            break;
        }
        got += n;
    }
    bytes.truncate(got);
    Ok(bytes)
}

/// Prints the report on the packed history that standard input holds; `report` writes it to a buffer of 1,024 bytes and
/// answers the bytes used.
pub fn print_report<F>(rt: &HostRuntime, report: F) -> io::Result<()>
where
    F: FnOnce(&[u8], &mut [u8]) -> Result<usize, ReportRefusal>,
    requires callable { F.IsAlwaysCallable report }
    requires room { (bytes : _) (buffer : _) (answer : _) (after : _) → F.post report bytes buffer answer after → IfOk answer (λ used. used ≤ 1024) }
{
    let bytes = read_history(rt)?;
    let mut out = [0; 1024];
    if let Ok(used) = report(bytes.as_slice(), &mut out) {
        rt.stdout().write_all(&out[..used])?;
    }
    Ok(())
}
