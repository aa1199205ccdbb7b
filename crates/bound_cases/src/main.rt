//! Certified bounds, on the cases of standard input: whether sums of rows show a half-space, and
//! where one that is sought ends.
//!
//! A line is read by its first word. `rows` begins a list of rows, each a `sat` line of a log; `root`
//! is the box, and `outliers` how many rows are left out. Behind `bound` come as many `by` lines as
//! it says, and the last of them is answered by `shown` or `not shown`. `seek DX DY DZ LEAST MOST` is
//! answered by `within` where a half-space is found along the direction that ends there. A line that
//! begins with `#` is printed. One that is none of these ends the program.
#![tactic(auto)]

mod case;
mod rows;

use case::Case;
use std::io::{self, ErrorKind};

fn main(rt: HostRuntime) -> io::Result<()> {
    let mut case = Case::new(rt.alloc());
    for line in rt.lines(rt.alloc()) {
        let line = line?;
        if line.starts_with('#') {
            println!(rt; "{line}")?;
        } else {
            answer(&rt, &mut case, line.as_bytes())?;
        }
    }
    Ok(())
}

/// Takes a line, and prints what is answered to it.
fn answer(rt: &HostRuntime, case: &mut Case, line: &[u8]) -> io::Result<()> {
    let Some(answer) = case.take(line) else {
        return Err(ErrorKind::InvalidInput.into());
    };
    match answer {
        Some(answer) => println!(rt; "{answer}"),
        None => Ok(()),
    }
}
