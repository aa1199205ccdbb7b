//! The files that a run reads: each by what its texts stand for, one behind another, and in one
//! line what is wrong with the first that isn't accepted.
#![tactic(auto)]

mod earlier;
mod grammar;
mod input_fault;
mod input_grammars;
mod input_texts;
mod inputs;
mod limits;
mod log_grammars;
mod motion;
mod named;
mod notice;
mod notice_texts;
mod placed;
mod role;
mod station_file;
mod status;
mod suits;
mod zones_grammar;

pub use earlier::EarlierText;
pub use grammar::Grammar;
pub use input_fault::InputFault;
pub use input_grammars::{NavText, ObsText, SettingsText, StationText};
pub use inputs::{Inputs, read_inputs, sought_of, wants_position};
pub use limits::Limits;
pub use log_grammars::{LogText, RowsText};
pub use motion::speed_of;
pub use named::read_named;
pub use notice::Notice;
pub use notice_texts::notice_line;
pub use role::Role;
pub use station_file::StationFile;
pub use status::Status;
pub use zones_grammar::ZonesText;
