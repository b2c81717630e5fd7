use crate::*;
use history::{ByNumber, Event, Strict, Table, WRITE};

fn entry(call: Call<ByNumber>) -> Entry<ByNumber, [u16; 3]> {
    Entry {
        call,
        buffer: [7; 3],
        answer: None,
    }
}

fn write(session: u8, revision: u16) -> Event {
    Event {
        kind: WRITE,
        session,
        star: 0,
        revision,
    }
}

/// Two writes of one star: verdicts come and go with stipulations, and each show has a buffer of its own.
#[test]
fn a_run_of_calls(rt: HostRuntime) {
    let events = [write(0, 1), write(1, 2)];
    let source = Table {
        season: 2031,
        events: &events,
    };
    let mut entries = [
        entry(Call::Judge(1)),
        entry(Call::Show(ByNumber)),
        entry(Call::Judge(2)),
        entry(Call::Show(ByNumber)),
        entry(Call::Stipulate(2, 1)),
        entry(Call::Show(ByNumber)),
        entry(Call::Judge(2)),
        entry(Call::Show(ByNumber)),
        entry(Call::Lift),
        entry(Call::Lift),
    ];
    let mut case = Case::new();
    assert!(rt; case.run(&source, &Strict, &mut entries).is_ok());
    assert_eq!(rt;
        entries[0].answer,
        Some(Ok(Answer::Judged(Judgement {
            verdict: Verdict::Spent,
            steps: 1,
        })))
    );
    assert_eq!(rt; entries[1].answer, Some(Err(Refusal::NotSerial)));
    assert_eq!(rt; entries[3].answer, Some(Ok(Answer::Shown(2))));
    assert!(rt; entries[3].buffer == [1, 2, 7]);
    assert_eq!(rt; entries[5].answer, Some(Err(Refusal::NotSerial)));
    assert!(rt; entries[7].buffer == [2, 1, 7]);
    assert_eq!(rt; entries[8].answer, Some(Ok(Answer::Lifted(2, 1))));
    assert_eq!(rt; entries[9].answer, Some(Err(Refusal::NoneStands)));
    let mut short = [7; 1];
    assert!(rt; case.judge(9).is_ok());
    assert_eq!(rt; case.show(&ByNumber, &mut short), Err(Refusal::ShortBuffer));
}
