//! Reads a packed history of up to 805 bytes from standard input, and prints the report on it.

#![tactic(auto)]

use report::report;
use report_io::print_report;
use std::io;

fn main(rt: HostRuntime) -> io::Result<()> {
    // A closure, since a function of another crate gets no proof where it is passed by its name.
    print_report(&rt, |bytes, buffer| report(bytes, buffer))
}
