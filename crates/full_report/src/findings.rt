//! What the report on packed bytes tells.
ghost use Rattle.std.specs.Prelude.{◌≡◌, ◌≢◌, IfSome, IfNone};
ghost use Rattle.referee.specs.declared.state.Judgement.{Judgement};
ghost use Rattle.full_report.specs.Findings.{FoundIn};

use crate::fault::Fault;
use history::{ByNumber, Strict};
use packed::{Header, Packed, check};
use referee::{Answer, Call, Case, Entry, Judgement, Refusal};

/// What is found of packed bytes. The order stands first in its array, if the verdict is serial.
#[derive(Drop)]
pub(crate) struct Findings {
    pub(crate) header: Header,
    pub(crate) judgement: Judgement,
    pub(crate) order: [u16; 256],
}

/// Judges the history that packed bytes mean, in at most 1,000,000 steps, and has its order shown by number; every pair of
/// a session is kept, and nothing is stipulated.
pub(crate) fn judge(bytes: &[u8]) -> Result<Findings, Fault>
    ensures { FoundIn bytes.now result }
{
    let header = check(bytes)?;
    let mut entries = [
        Entry {
            call: Call::Judge(1_000_000),
            buffer: [0; 256],
            answer: None,
        },
        Entry {
            call: Call::Show(ByNumber),
            buffer: [0; 256],
            answer: None,
        },
    ];
    Case::new().run(&Packed { bytes }, &Strict, &mut entries)?;
    let Some(judgement) = judgement_in(entries[0].answer) else {
        unreachable()
    };
    Ok(Findings {
        header,
        judgement,
        order: entries[1].buffer,
    })
}

/// The judgement that a call answers, if it answers one.
fn judgement_in(answer: Option<Result<Answer, Refusal>>) -> Option<Judgement>
    ensures some { IfSome result (λ j. answer ≡ Some (Ok (Answer.Judged j))) }
    ensures none { IfNone result ((j : Judgement) → answer ≢ Some (Ok (Answer.Judged j))) }
{
    match answer {
        Some(Ok(Answer::Judged(judgement))) => Some(judgement),
        _ => None,
    }
}
