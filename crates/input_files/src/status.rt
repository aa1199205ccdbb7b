//! How a run of the program ends.

/// How a run ended. The number of a status, from 0, is the exit status of the program.
#[derive(Clone, Copy, Debug, PartialEq, Eq)]
pub enum Status {
    /// The job was done to its end. Of a verdict: it is yes.
    Done,
    /// The verdict is no.
    No,
    /// The words are no command.
    Usage,
    /// A file is too long, or isn't what it is read for.
    Refused,
    /// A file is missing, or a read of it has failed.
    ReadFault,
    /// A write has failed.
    WriteFault,
    NoMemory,
    /// The log that is written would pass its limit.
    LogFull,
}
