//! Compares the rows of recorded satellites with rows of the same epochs that an independent
//! program formed and widened: `recorded_rows OBS NAV SETTINGS ROWS`.
//!
//! Prints how many satellites were compared and how many of them differ: by another satellite or
//! skip, a span that theirs doesn't hold, other error bounds, or a span wider than is allowed.
//! Standard error gets the width of the widest span beside the allowed one, in um.
#![tactic(auto)]

mod compare;
mod inputs;

use compare::{Comparison, compare};
use inputs::read_inputs;
use outer_io::{Failed, FileShelf, Sink, StreamSink, write_sink};
use std::process::ExitCode;
use std::{env, io};

fn main(rt: HostRuntime) -> ExitCode {
    let alloc = rt.alloc();
    let mut out = StreamSink::out(rt.stdout());
    let mut err = StreamSink::err(rt.stderr());
    let Ok(names) = words(&rt) else {
        return ExitCode::from(2);
    };
    if names.len() != 4 {
        return ExitCode::from(2);
    }
    let mut shelf = FileShelf::make(rt);
    let Ok(inputs) = read_inputs(
        alloc, &mut shelf, &names[0], &names[1], &names[2], &names[3],
    ) else {
        return ExitCode::from(3);
    };
    let Ok(seen) = compare(alloc, &inputs) else {
        return ExitCode::from(4);
    };
    match print(&seen, &mut out, &mut err) {
        Ok(()) => ExitCode::from(u8::from(seen.differ != 0)),
        Err(_) => ExitCode::from(5),
    }
}

/// The words after the program's name. It fails where one isn't UTF-8.
fn words(rt: &HostRuntime) -> io::Result<Vec<String>> {
    let mut words = Vec::new(rt.alloc());
    for word in env::args(rt)?.skip(1) {
        words.push(word)?;
    }
    Ok(words)
}

/// Prints the counts, and the widths on the second sink.
fn print<O: Sink, E: Sink>(seen: &Comparison, out: &mut O, err: &mut E) -> Result<(), Failed> {
    write_sink(err, seen.widths_line().as_bytes())?;
    write_sink(out, seen.counts_line().as_bytes())
}
