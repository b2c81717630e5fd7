//! The printed answers, and the loop that asks for them.

use crate::trouble::Trouble;
use history::Source;
use packed::{Packed, check, write};

/// Answers standard input line by line, up to the line `quit` or the end; where a line does not fit, prints its number.
pub fn answer_lines<F: FnMut(&str) -> Result<(), Trouble>>(
    rt: &HostRuntime,
    mut answer: F,
) -> anyhow::Result<()>
    requires { F.IsAlwaysCallable answer }
{
    for (number, line) in (1u64..).zip(rt.lines(rt.alloc())) {
        let line = line?;
        if line.as_str() == "quit" {
            break;
        }
        match answer(line.as_str()) {
            Err(Trouble::Unfit) => println!(rt; "error line {number}")?,
            answered => answered?,
        }
    }
    Ok(())
}

/// Prints a source's season and count, and the event with a number.
pub(crate) fn print_questions<S: Source>(
    rt: &HostRuntime,
    source: &S,
    number: u16,
) -> Result<(), Trouble> {
    print_head(rt, source)?;
    match source.event(number) {
        Some(event) => print!(rt; " {event}")?,
        None => print!(rt; " absent")?,
    }
    println!(rt; "")?;
    Ok(())
}

/// Writes a source to a buffer of a length, filled with AA, and prints the buffer after.
pub(crate) fn print_writing<S: Source>(
    rt: &HostRuntime,
    source: &S,
    length: usize,
) -> Result<(), Trouble> {
    let mut buffer = vec![in rt.alloc(); 0xaa; length]?;
    let answer = write(source, buffer.as_mut_slice());
    let after = hex::encode(rt.alloc(), buffer)?;
    match answer {
        Ok(used) => println!(rt; "ok {used} : {after}")?,
        Err(refusal) => println!(rt; "refused {} : {after}", refusal.number())?,
    }
    Ok(())
}

/// Prints what packed bytes mean, or why they are refused.
pub(crate) fn print_reading(rt: &HostRuntime, bytes: &[u8]) -> Result<(), Trouble> {
    if let Err(fault) = check(bytes) {
        println!(rt; "refused {} place {}", fault.number(), fault.place())?;
        return Ok(());
    }
    let source = Packed { bytes };
    print_head(rt, &source)?;
    for event in source.iter_counted() {
        print!(rt; " {event}")?;
    }
    println!(rt; "")?;
    Ok(())
}

/// Prints a source's season and count.
fn print_head<S: Source>(rt: &HostRuntime, source: &S) -> Result<(), Trouble> {
    print!(rt; "ok {} {}", source.season(), source.count())?;
    Ok(())
}
