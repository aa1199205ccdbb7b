//! What a file is read or written for.

ghost use Rattle.std.specs.Prelude.{◌≡◌};
ghost use Rattle.input_files.specs.Roles.{slot_of};

use outer_io::Slot;

/// What a file is read or written for, by which notices name it.
#[derive(Clone, Copy, Debug, PartialEq, Eq)]
pub enum Role {
    Settings,
    Nav,
    Obs,
    Station,
    Rows,
    /// Zones, which are never read beside rows and go through their slot.
    Zones,
    Log,
    /// An earlier log, which is read before the log and goes through its slot.
    After,
}

impl Role {
    /// The slot that the file is opened in.
    pub fn slot(self) -> Slot
        ensures { result ≡ slot_of self }
    {
        match self {
            Role::Settings => Slot::Settings,
            Role::Nav => Slot::Nav,
            Role::Obs => Slot::Obs,
            Role::Station => Slot::Station,
            Role::Rows | Role::Zones => Slot::Rows,
            Role::Log | Role::After => Slot::Log,
        }
    }
}
