//! Why a settings text is refused.

ghost use Rattle.std.specs.Prelude.{◌≡◌};
ghost use Rattle.error_bounds.specs.declared.fault.SettingsError.TheVariants.{Refused, NoMemory};

use arrayvec::ArrayString;
use std::alloc::{AllocError, AllocFailed};

/// The printed name of a key. A longer one keeps its longest front of whole characters.
pub type KeyText = ArrayString<64>;

/// What is wrong with a text, or with a key of it. Each has its number.
#[derive(Clone, Copy, Debug, PartialEq, Eq)]
pub enum Fault {
    /// The text is no TOML.
    NotToml = 30,
    /// The key, or the table that should hold it, is absent.
    Missing = 31,
    /// The value is of another kind, or what should hold the key is no table.
    WrongKind = 32,
    /// The value is another text, has another number of members, or is out of order or range.
    Outside = 33,
    /// No key has this name.
    Unknown = 34,
}

/// The first fault of a text: its number, and the printed name of its key, which is empty where
/// the text is no TOML.
#[derive(Clone, Copy, PartialEq, Eq)]
pub struct SettingsFault {
    pub number: u8,
    pub key: KeyText,
}

/// Why a text couldn't be read.
#[derive(Clone, Copy, PartialEq, Eq)]
pub enum SettingsError {
    Refused(SettingsFault),
    NoMemory,
}

impl Fault {
    ghost use Rattle.error_bounds.specs.Faults.{number_of};

    /// The number of the fault.
    pub fn number(self) -> u8
        ensures { result ≡ number_of self }
    {
        self as u8
    }
}

impl SettingsFault {
    ghost use Rattle.error_bounds.specs.Reading.{Tells};

    /// The fault at a key of this printed name.
    pub fn new(fault: Fault, key: &str) -> SettingsFault
        ensures { Tells (record { fault = fault; key = key.now }) result }
    {
        let kept = key.floor_char_boundary(KeyText::new().capacity());
        let mut text = KeyText::new();
        text.push_str(&key[..kept]);
        SettingsFault {
            number: fault.number(),
            key: text,
        }
    }
}

impl From<SettingsFault> for SettingsError {
    ghost from_gives = { λ fault error. error ≡ Refused fault };

    fn from(fault: SettingsFault) -> SettingsError {
        SettingsError::Refused(fault)
    }
}

impl From<AllocError> for SettingsError {
    ghost from_gives = { λ _ error. error ≡ NoMemory };

    fn from(_error: AllocError) -> SettingsError {
        SettingsError::NoMemory
    }
}

impl<T: Drop> From<AllocFailed<T>> for SettingsError {
    ghost from_gives = { λ _ error. error ≡ NoMemory };

    fn from(_error: AllocFailed<T>) -> SettingsError {
        SettingsError::NoMemory
    }
}
