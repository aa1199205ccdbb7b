//! The most bytes that files may have.

ghost use Rattle.std.specs.Prelude.{◌≡◌, ◌≤◌};
ghost use Rattle.outer_io.specs.Sizes.{longest_file};

use crate::role::Role;

/// The most bytes that a file may have: an observation file, of the receiver or of a station, a
/// navigation or rows file, the settings or zones, and a log, which is read or written. No file may
/// have more than 4 * 10^9.
#[derive(Clone, Copy, Debug, PartialEq, Eq)]
pub struct Limits {
    pub file: u64,
    pub settings: u64,
    pub log: u64,
    pub ghost file_within: { file ≤ longest_file },
    pub ghost settings_within: { settings ≤ longest_file },
    pub ghost log_within: { log ≤ longest_file },
}

impl Limits {
    ghost use Rattle.input_files.specs.Reading.{limit_of};

    /// The most bytes of a file with this role.
    pub fn of(&self, role: Role) -> u64
        ensures limit { result ≡ limit_of self.now role }
        ensures within { result ≤ longest_file }
    {
        match role {
            Role::Settings | Role::Zones => self.settings,
            Role::Nav | Role::Obs | Role::Station | Role::Rows => self.file,
            Role::Log | Role::After => self.log,
        }
    }
}
