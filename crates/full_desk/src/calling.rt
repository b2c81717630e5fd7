//! The answers to lines about a case.

use crate::line::{Line, Preferred, Ruling};
use history::{ByNumber, BySession, ByStar, Lag, Source, Star, Strict};
use referee::{Case, Refusal};
use scripts::{Shelf, Trouble};

/// Does what a line says, and prints the answer.
pub(crate) fn answer(
    rt: &HostRuntime,
    shelf: &mut Shelf,
    case: &mut Case,
    line: Line<'_>,
) -> Result<(), Trouble> {
    match line {
        Line::Sources(line) => shelf.answer(rt, line)?,
        Line::Open(ruling, pile) => open(rt, case, &shelf.pile(pile), ruling)?,
        Line::Stipulate(first, second) => match case.stipulate(first, second) {
            Ok(()) => println!(rt; "ok")?,
            Err(refusal) => refused(rt, refusal)?,
        },
        Line::Lift => match case.lift() {
            Ok((first, second)) => println!(rt; "ok {first} {second}")?,
            Err(refusal) => refused(rt, refusal)?,
        },
        Line::Judge(budget) => match case.judge(budget) {
            Ok(found) => println!(rt; "ok {} {}", found.verdict, found.steps)?,
            Err(refusal) => refused(rt, refusal)?,
        },
        Line::Show(preferred, length) => show(rt, case, preferred, length)?,
        Line::Forced(a, b) => match case.forced(a, b) {
            Ok(forced) => println!(rt; "ok {forced}")?,
            Err(refusal) => refused(rt, refusal)?,
        },
        Line::Clash => match case.clash() {
            Ok(Some(number)) => println!(rt; "ok {number}")?,
            Ok(None) => println!(rt; "ok absent")?,
            Err(refusal) => refused(rt, refusal)?,
        },
    }
    Ok(())
}

fn refused(rt: &HostRuntime, refusal: Refusal) -> Result<(), Trouble> {
    println!(rt; "refused {}", refusal.number())?;
    Ok(())
}

/// Opens the case with a source and a rule, and prints that, or the fault.
fn open<S: Source>(
    rt: &HostRuntime,
    case: &mut Case,
    source: &S,
    ruling: Ruling,
) -> Result<(), Trouble> {
    // One arm each: a rule is a type.
    let opened = match ruling {
        Ruling::Strict => case.open(source, &Strict),
        Ruling::Star => case.open(source, &Star),
        Ruling::Lag => case.open(source, &Lag),
    };
    match opened {
        Ok(()) => println!(rt; "ok")?,
        Err(fault) => println!(rt; "refused {} place {}", fault.number(), fault.place())?,
    }
    Ok(())
}

/// Shows an order in a buffer of a length, filled with 7, and prints the buffer after.
fn show(rt: &HostRuntime, case: &Case, preferred: Preferred, length: usize) -> Result<(), Trouble> {
    let mut buffer: Vec<u16> = vec![in rt.alloc(); 7; length]?;
    // One arm each: a preference is a type.
    let answer = match preferred {
        Preferred::ByNumber => case.show(&ByNumber, &mut buffer),
        Preferred::ByStar => case.show(&ByStar, &mut buffer),
        Preferred::BySession => case.show(&BySession, &mut buffer),
    };
    match answer {
        Ok(count) => print!(rt; "ok {count} :")?,
        Err(refusal) => print!(rt; "refused {} :", refusal.number())?,
    }
    for number in &buffer {
        print!(rt; " {number}")?;
    }
    println!(rt; "")?;
    Ok(())
}
