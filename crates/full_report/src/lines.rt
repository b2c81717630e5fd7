//! The lines of a report.
ghost use Rattle.std.specs.Prelude.{◌≡◌, ◌+◌, ◌≤◌, ◌++◌, length};
ghost use Rattle.arrayvec.specs.ArrayString.{array_string_len};
ghost use Rattle.full_report.specs.Text.{order_line, verdict_line};
ghost use Rattle.referee.specs.Words.{verdict_word};

use referee::Judgement;
use text::{Text, push_number, push_number_line};

/// Appends the line with a verdict and the steps.
pub(crate) fn push_verdict_line(text: &mut Text, judgement: Judgement)
    requires { array_string_len text.old ≤ 982 }
    ensures { text.new.bytes ≡ text.old.bytes ++ verdict_line (verdict_word judgement.verdict) judgement.steps }
{
    text.push_str("verdict ");
    text.push_str(judgement.verdict.word());
    push_number_line(text, " steps ", judgement.steps.into());
}

/// Appends the line with an order.
pub(crate) fn push_order_line(text: &mut Text, numbers: &[u16])
    requires { array_string_len text.old + length (order_line numbers.now) ≤ 1024 }
    ensures { text.new.bytes ≡ text.old.bytes ++ order_line numbers.now }
{
    text.push_str("order");
    for n in numbers {
        text.push_str(" ");
        push_number(text, (*n).into());
    }
    text.push_str("\n");
}
