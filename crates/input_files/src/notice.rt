//! Why a run doesn't do its job to the end.

ghost use Rattle.std.specs.Prelude.{◌≡◌};
ghost use Rattle.input_files.specs.Statuses.{status_of, notice_of_read, notice_of_log};
ghost use Rattle.input_files.specs.Statuses.{notice_of_settings, notice_of_file, notice_of_zones};

use crate::input_fault::InputFault;
use crate::role::Role;
use crate::status::Status;
use error_bounds::SettingsError;
use outer_io::ReadAll;
use paving_log::LogError;
use rinex_text::ReadError;
use zone_guard::ZoneError;

/// What is said on standard error, in one line, of a run that doesn't do its job to the end. A role
/// says which file it is about.
#[derive(Clone, Copy, PartialEq, Eq)]
pub enum Notice {
    /// The words are no command.
    Usage,
    /// The file has more bytes than this limit.
    TooLong { role: Role, limit: u64 },
    /// The file's text has its first fault at this line, of this kind.
    BadLog { role: Role, line: u32, kind: u8 },
    /// The zones have their first line that doesn't fit here.
    BadZones { line: u32 },
    /// The earlier log isn't right: its first line that fails a test is this.
    BadAfter { line: u32 },
    /// What the earlier log leaves doesn't lie in the search box.
    AfterOutside,
    /// A receiver's file has this first fault.
    BadInput(InputFault),
    /// The file is missing, or a read of it has failed.
    ReadFault { role: Role },
    /// The log couldn't be created, or a write to it has failed.
    LogFault,
    /// A write to standard output has failed.
    OutFault,
    NoMemory,
    /// The next line of the log would bring it past this limit.
    LogFull { limit: u64 },
}

impl Notice {
    /// How a run ends that gives this notice.
    pub fn status(&self) -> Status
        ensures { result ≡ status_of self.now }
    {
        match self {
            Notice::Usage => Status::Usage,
            Notice::TooLong { .. } => Status::Refused,
            Notice::BadLog { .. } => Status::Refused,
            Notice::BadZones { .. } => Status::Refused,
            Notice::BadAfter { .. } => Status::Refused,
            Notice::AfterOutside => Status::Refused,
            Notice::BadInput(_) => Status::Refused,
            Notice::ReadFault { .. } => Status::ReadFault,
            Notice::LogFault => Status::WriteFault,
            Notice::OutFault => Status::WriteFault,
            Notice::NoMemory => Status::NoMemory,
            Notice::LogFull { .. } => Status::LogFull,
        }
    }

    /// Why the file wasn't read to its end.
    pub fn of_read(role: Role, refusal: ReadAll) -> Notice
        ensures { result ≡ notice_of_read role refusal }
    {
        match refusal {
            ReadAll::ReadFault => Notice::ReadFault { role },
            ReadAll::TooLong { limit } => Notice::TooLong { role, limit },
            ReadAll::NoMemory => Notice::NoMemory,
        }
    }

    /// Why the text of a file of rows or a log is none of its kind.
    pub fn of_text(role: Role, error: LogError) -> Notice
        ensures { result ≡ notice_of_log role error }
    {
        match error {
            LogError::BadLog { line, kind } => Notice::BadLog { role, line, kind },
            LogError::NoMemory => Notice::NoMemory,
        }
    }

    /// Why the zones weren't read.
    pub fn of_zones(error: ZoneError) -> Notice
        ensures { result ≡ notice_of_zones error }
    {
        match error {
            ZoneError::BadZones { line } => Notice::BadZones { line },
            ZoneError::NoMemory => Notice::NoMemory,
        }
    }

    /// Why the settings weren't read.
    pub fn of_settings(error: SettingsError) -> Notice
        ensures { result ≡ notice_of_settings error }
    {
        match error {
            SettingsError::Refused(fault) => Notice::BadInput(InputFault::Settings(fault)),
            SettingsError::NoMemory => Notice::NoMemory,
        }
    }

    /// Why the navigation file wasn't read.
    pub fn of_nav(error: ReadError) -> Notice
        ensures { result ≡ notice_of_file (λ refusal. InputFault.Nav refusal) error }
    {
        match error {
            ReadError::Refused(refusal) => Notice::BadInput(InputFault::Nav(refusal)),
            ReadError::NoMemory => Notice::NoMemory,
        }
    }

    /// Why the station's file wasn't read.
    pub fn of_station(error: ReadError) -> Notice
        ensures { result ≡ notice_of_file (λ refusal. InputFault.Station refusal) error }
    {
        match error {
            ReadError::Refused(refusal) => Notice::BadInput(InputFault::Station(refusal)),
            ReadError::NoMemory => Notice::NoMemory,
        }
    }

    /// Why the observation file wasn't read.
    pub fn of_obs(error: ReadError) -> Notice
        ensures { result ≡ notice_of_file (λ refusal. InputFault.Obs refusal) error }
    {
        match error {
            ReadError::Refused(refusal) => Notice::BadInput(InputFault::Obs(refusal)),
            ReadError::NoMemory => Notice::NoMemory,
        }
    }
}
