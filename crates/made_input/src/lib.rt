//! The input of a made receiver, whose place is known: an observation file, a navigation file and
//! settings, which their readers accept.
#![tactic(auto)]

mod codes;
mod epochs;
mod fits;
mod generator;
mod input;
mod made;
mod receiver;
mod record_list;
mod records;

pub use fits::{place_fits, satellites_are_usable};
pub use input::make;
pub use made::Made;
