//! Reads a script of lines about sources and a case from standard input, and prints an answer a line each.

#![tactic(auto)]

mod calling;
mod line;

use calling::answer;
use line::Line;
use referee::Case;
use scripts::{Shelf, answer_lines};

fn main(rt: HostRuntime) -> anyhow::Result<()> {
    let mut shelf = Shelf::new(rt.alloc());
    let mut case = Case::new();
    answer_lines(
        &rt,
        |text| answer(&rt, &mut shelf, &mut case, Line::try_from(text)?),
    )
}
