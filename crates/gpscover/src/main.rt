//! Guaranteed position sets for a GPS receiver, from the command line.
#![tactic(auto)]

use cover_run::{Limits, Status, run};
use outer_io::{FileShelf, StreamSink, write_sink};
use std::io::ErrorKind;
use std::process::ExitCode;
use std::{env, io};

const LIMITS: Limits = Limits {
    file: 268_435_456,
    settings: 65_536,
    log: 536_870_912,
};

fn main(rt: HostRuntime) -> ExitCode {
    let mut out = StreamSink::out(rt.stdout());
    let mut err = StreamSink::err(rt.stderr());
    let alloc = rt.alloc();
    let words = match words(&rt) {
        Ok(words) => words,
        Err(error) if error.kind() == ErrorKind::OutOfMemory => {
            let _ = write_sink(&mut err, b"no memory\n");
            return ExitCode::from(Status::NoMemory as u8);
        }
        // No command has a word that isn't UTF-8.
        Err(_) => Vec::new(alloc),
    };
    let mut shelf = FileShelf::make(rt);
    let status = run(alloc, &LIMITS, &words, &mut shelf, &mut out, &mut err);
    ExitCode::from(status as u8)
}

// The words after the program's name. It fails where one isn't UTF-8.
fn words(rt: &HostRuntime) -> io::Result<Vec<String>> {
    let mut words = Vec::new(rt.alloc());
    for word in env::args(rt)?.skip(1) {
        words.push(word)?;
    }
    Ok(words)
}
