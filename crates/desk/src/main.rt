//! Reads a script of lines about sources from standard input, and prints an answer a line each.

#![tactic(auto)]

use scripts::{Line, Shelf, answer_lines};

fn main(rt: HostRuntime) -> anyhow::Result<()> {
    let mut shelf = Shelf::new(rt.alloc());
    answer_lines(&rt, |text| shelf.answer(&rt, Line::try_from(text)?))
}
