//! Reads and writes files of the system through a shelf, and prints what becomes of them: a longer
//! file that is written over, a new one, and what can't be opened, read, created or written.
#![tactic(auto)]

use outer_io::{
    Failed, FileShelf, ReadAll, Shelf, Sink, Slot, StreamSink, read_all, write_shelf, write_sink,
};
use std::alloc::Global;
use std::process::ExitCode;

/// Prints what the named file holds, or why it isn't read.
fn show<H: Shelf, O: Sink>(
    alloc: Global,
    shelf: &mut H,
    out: &mut O,
    name: &str,
) -> Result<(), Failed> {
    match shelf.begin(name, Slot::Rows) {
        Ok(()) => {}
        Err(_) => return write_sink(out, b"not opened\n"),
    }
    match read_all(alloc, shelf, Slot::Rows, 4_096) {
        Ok(bytes) => write_sink(out, &bytes),
        Err(ReadAll::ReadFault) => write_sink(out, b"not read\n"),
        Err(ReadAll::TooLong { .. }) => write_sink(out, b"too long\n"),
        Err(ReadAll::NoMemory) => write_sink(out, b"no memory\n"),
    }
}

/// Writes the text over the named file, or prints why it isn't written.
fn write_over<H: Shelf, O: Sink>(
    shelf: &mut H,
    out: &mut O,
    name: &str,
    text: &[u8],
) -> Result<(), Failed> {
    match shelf.create(name, Slot::Log) {
        Ok(()) => {}
        Err(_) => return write_sink(out, b"not created\n"),
    }
    match write_shelf(shelf, Slot::Log, text) {
        Ok(()) => Ok(()),
        Err(_) => write_sink(out, b"not written\n"),
    }
}

/// Writes 85,000 bytes over the named file, more than the pieces of 64 KiB in which logs go out,
/// and prints whether as many are read again.
fn tell_long<H: Shelf, O: Sink>(
    alloc: Global,
    shelf: &mut H,
    out: &mut O,
    name: &str,
) -> Result<(), Failed> {
    match shelf.create(name, Slot::Log) {
        Ok(()) => {}
        Err(_) => return write_sink(out, b"not created\n"),
    }
    'lines: for _ in 0..5_000 {
        if write_shelf(shelf, Slot::Log, b"sixteen and a LF\n").is_err() {
            return write_sink(out, b"not written\n");
        }
    }
    match shelf.begin(name, Slot::Rows) {
        Ok(()) => {}
        Err(_) => return write_sink(out, b"not opened\n"),
    }
    match read_all(alloc, shelf, Slot::Rows, 100_000) {
        Ok(bytes) if bytes.len() == 85_000 => write_sink(out, b"read whole\n"),
        _ => write_sink(out, b"not read whole\n"),
    }
}

/// Reads, writes and reads again.
fn tell<H: Shelf, O: Sink>(alloc: Global, shelf: &mut H, out: &mut O) -> Result<(), Failed> {
    show(alloc, shelf, out, "long.txt")?;
    write_over(shelf, out, "long.txt", b"short\n")?;
    show(alloc, shelf, out, "long.txt")?;
    write_over(shelf, out, "new.txt", b"new\n")?;
    show(alloc, shelf, out, "new.txt")?;
    show(alloc, shelf, out, "missing.txt")?;
    show(alloc, shelf, out, "folder")?;
    write_over(shelf, out, "folder", b"new\n")?;
    write_over(shelf, out, "missing/new.txt", b"new\n")?;
    write_over(shelf, out, "/dev/full", b"new\n")?;
    tell_long(alloc, shelf, out, "new.txt")
}

fn main(rt: HostRuntime) -> ExitCode {
    let alloc = rt.alloc();
    let mut out = StreamSink::out(rt.stdout());
    let mut shelf = FileShelf::make(rt);
    match tell(alloc, &mut shelf, &mut out) {
        Ok(()) => ExitCode::from(0),
        Err(_) => ExitCode::from(1),
    }
}
