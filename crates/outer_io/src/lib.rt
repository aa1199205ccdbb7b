//! The outside world as a program sees it: a shelf of named files, and sinks that take bytes.
//!
//! `Shelf` and `Sink` say what each call does to the files and bytes, and count the calls that
//! fail. `FileShelf` and `StreamSink` are the system's; `MemoryShelf` and `MemorySink` tell
//! everything, fail where they are asked to, and are for tests and for work in memory.
#![tactic(auto)]

mod failed;
mod failing_calls;
mod file_shelf;
mod marks;
mod memory_files;
mod memory_shelf;
mod memory_sink;
mod names;
mod pieces;
mod reading;
mod shelf;
mod sink;
mod slots;
mod stream_sink;
mod writing;

pub use failed::Failed;
pub use file_shelf::FileShelf;
pub use memory_shelf::MemoryShelf;
pub use memory_sink::MemorySink;
pub use reading::{ReadAll, read_all};
pub use shelf::{Phase, Shelf};
pub use sink::Sink;
pub use slots::{Slot, Slots};
pub use stream_sink::StreamSink;
pub use writing::{write_shelf, write_sink};
