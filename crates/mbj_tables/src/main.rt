//! Prints the codes that C has for the words of a job, and the lengths and numbers that jobs and job files may have, as the proved code has
//! them. The script `tests/docs/facts.py` compares the header, the help and the documents with this.
#![tactic(auto)]

mod codes;
mod lengths;
mod numbers;

use std::io;

fn main(rt: HostRuntime) -> io::Result<()> {
    codes::print_all(&rt)?;
    lengths::print_all(&rt)?;
    numbers::print_all(&rt)
}
