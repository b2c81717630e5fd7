ghost use Rattle.std.specs.Prelude.{◌≡◌, ◌≤◌, IfOk};
ghost use Rattle.full_report.specs.Reports.{OneReport, ReportOf, Reports};

use crate::fault::fault_line;
use crate::findings::judge;
use crate::judged::found_text;
use report::ReportRefusal;
use text::{Text, copy_to_front};

/// The report on packed bytes.
fn report_text(bytes: &[u8]) -> Text
    ensures { ReportOf bytes.now result.bytes }
{
    match judge(bytes) {
        Ok(found) => found_text(&found),
        Err(fault) => fault_line(fault),
    }
}

/// Writes the report on packed bytes to the front of a buffer, and answers the bytes used.
///
/// The report has a line with the season and the count of events, a line with the verdict and the steps, and, if the verdict
/// is serial, a line with the order; or it has one line that tells of the fault. A buffer below 1,024 bytes is refused and
/// stays as it was; otherwise what lies behind the report stays as it was.
pub fn report(bytes: &[u8], buffer: &mut [u8]) -> Result<usize, ReportRefusal>
    ensures reports { Reports bytes.now buffer.old buffer.new result }
    ensures room { IfOk result (λ used. used ≤ 1024) }
{
    if buffer.len() < 1024 {
        return Err(ReportRefusal::ShortBuffer);
    }
    Ok(copy_to_front(&report_text(bytes), buffer))
}

/// There is one report on given bytes.
pub fn there_is_one_report()
    ensures { OneReport }
{}
