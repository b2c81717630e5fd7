ghost use Rattle.std.specs.Prelude.{◌≡◌, ◌≤◌, length, IfOk};
ghost use Rattle.arrayvec.specs.ArrayString.{array_string_len};
ghost use Rattle.report.specs.Reports.{header_line, read, report_text, report_answer, report_after, refusal_number};

use crate::fault::{Fault, fault_line};
use packed::{Header, check};
use text::{Text, copy_to_front, pair_line};

/// Why no report is written.
#[derive(Clone, Copy, PartialEq, Eq, Debug)]
pub enum ReportRefusal {
    /// The buffer has fewer than 1,024 bytes.
    ShortBuffer = 41,
}

impl ReportRefusal {
    /// The refusal's number, 41.
    pub fn number(self) -> u8
        ensures { result ≡ refusal_number self }
    {
        self as u8
    }
}

/// The header of packed bytes, or the fault that they are refused with.
fn read_header(bytes: &[u8]) -> Result<Header, Fault>
    ensures { result ≡ read bytes.now }
{
    let header = check(bytes)?;
    Ok(header)
}

/// The line with season and count.
pub fn header_line(header: Header) -> Text
    ensures text { result.bytes ≡ header_line header }
    ensures short { array_string_len result ≤ 56 }
{
    pair_line(
        "season ",
        header.season.into(),
        " events ",
        header.count.into(),
    )
}

/// Writes the report on packed bytes to the front of a buffer, and answers the bytes used.
///
/// The report is a line with the season and the count of events, or a line that tells of the fault.
/// A buffer below 1,024 bytes is refused and stays as it was; otherwise what lies behind the report
/// stays as it was.
pub fn report(bytes: &[u8], buffer: &mut [u8]) -> Result<usize, ReportRefusal>
    ensures answer { result ≡ report_answer (report_text bytes.now) (length buffer.old) }
    ensures after { buffer.new ≡ report_after (report_text bytes.now) buffer.old }
    ensures room { IfOk result (λ used. used ≤ 1024) }
{
    if buffer.len() < 1024 {
        return Err(ReportRefusal::ShortBuffer);
    }
    let text = match read_header(bytes) {
        Ok(header) => header_line(header),
        Err(fault) => fault_line(fault),
    };
    Ok(copy_to_front(&text, buffer))
}
