//! What the words ask for.

/// The epochs of a file whose numbers are `from` to `to`, both of 1 to 200,000. There may be none.
#[derive(Clone, Copy, Debug, PartialEq, Eq)]
pub struct Selection {
    pub from: u32,
    pub to: u32,
}

/// The names of a receiver's files, of a station's where one is given, of a log, and of an earlier
/// log where a track goes on behind one, and the epochs that are taken.
#[derive(Clone, Copy, Debug, PartialEq, Eq)]
pub struct Files<'a> {
    pub obs: &'a str,
    pub nav: &'a str,
    pub settings: &'a str,
    pub station: Option<&'a str>,
    pub log: &'a str,
    pub after: Option<&'a str>,
    pub selection: Selection,
}

/// What the words ask for. Files are given by their names.
#[derive(Clone, Copy, Debug, PartialEq, Eq)]
pub enum Command<'a> {
    /// Judge this log.
    Judge {
        log: &'a str,
    },
    /// Pave these rows, write the log, and print its report unless it is to be quiet.
    Pave {
        rows: &'a str,
        log: &'a str,
        quiet: bool,
    },
    /// Pave the epochs of these files, write the log, and print its report unless it is to be quiet.
    Solve {
        files: Files<'a>,
        quiet: bool,
    },
    /// Check the log against the files.
    Check(Files<'a>),
    /// Do what `Solve` does for the epochs of a moving receiver.
    Track {
        files: Files<'a>,
        quiet: bool,
    },
    /// Check the log of a moving receiver against the files.
    Retrack(Files<'a>),
    /// Check the log as `Check` does, or as `Retrack` where it is that of a track, and tell what it
    /// says of zones.
    Guard {
        files: Files<'a>,
        zones: &'a str,
        tracked: bool,
    },
    /// Make so many epochs of a known receiver, and solve them.
    Make {
        seed: u32,
        epochs: u32,
    },
}
