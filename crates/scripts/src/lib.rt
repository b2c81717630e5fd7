//! Scripts: each line asks something of the sources that the script holds, and is answered by a line.
//!
//! What the programs `desk` and `full_desk` have in common. Like a program it uses the heap. A function with no clause
//! here is proved safe, and what it reads or prints is only tested.

#![tactic(auto)]

mod answers;
mod bytes;
mod line;
mod pile;
mod shelf;
mod trouble;
mod words;

pub use answers::answer_lines;
pub use bytes::parse_bytes;
pub use line::Line;
pub use pile::{Base, Name, Pile, Shift};
pub use shelf::{Based, Held, Named, Piled, Shelf, Shifted};
pub use trouble::{Trouble, Unfit};
pub use words::Words;

#[cfg(test)]
mod tests;
