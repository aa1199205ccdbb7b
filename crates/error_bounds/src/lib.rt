//! The settings of a run, read from TOML: where to search and how, which signals to use, and the
//! declared bounds of the errors.
#![tactic(auto)]

mod bounds;
mod directions;
mod directions_key;
mod fault;
mod form;
mod galileo;
mod galileo_table;
mod key;
mod motion_table;
mod names;
mod places;
mod read;
mod satellites;
mod search;
mod search_box;
mod settings;
mod signals;
mod station;
mod station_table;
mod tables;

pub use fault::{Fault, KeyText, SettingsError, SettingsFault};
pub use galileo::Galileo;
pub use read::read_settings;
pub use settings::{Centre, Settings};
pub use station::DeclaredStation;
