//! The report on a judged history.
ghost use Rattle.std.specs.Prelude.{◌≡◌, ◌≤◌, length};
ghost use Rattle.arrayvec.specs.ArrayString.{array_string_len};
ghost use Rattle.full_report.specs.Text.{judged_text};
ghost use Rattle.full_report.specs.Findings.{found_text};
ghost use Rattle.referee.specs.Words.{verdict_word};

use crate::findings::Findings;
use crate::lines::{push_order_line, push_verdict_line};
use packed::Header;
use referee::{Judgement, Verdict};
use report::header_line;
use text::Text;

/// The line with season and count and the line with the verdict.
fn judged_text(header: Header, judgement: Judgement) -> Text
    ensures { result.bytes ≡ judged_text header (verdict_word judgement.verdict) judgement.steps }
{
    let mut text = header_line(header);
    push_verdict_line(&mut text, judgement);
    text
}

/// The report on what was found.
pub(crate) fn found_text(found: &Findings) -> Text
    requires few { found.now.header.count ≤ 256 }
    requires room { length (found_text found.now) ≤ 1024 }
    ensures { result.bytes ≡ found_text found.now }
{
    let mut text = judged_text(found.header, found.judgement);
    if found.judgement.verdict == Verdict::Serial {
        push_order_line(&mut text, &found.order[..found.header.count as usize]);
    }
    text
}
