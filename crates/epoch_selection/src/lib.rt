//! Which epochs of an observation file a run takes, and the box in which each of them is searched.
#![tactic(auto)]

mod laws;
mod searches;
mod selection;
mod walk;

pub use laws::kept_are_selected;
pub use rinex_obs::{FIRST_EPOCH, LAST_EPOCH};
pub use searches::Searches;
pub use selection::Selection;
pub use walk::Walk;
