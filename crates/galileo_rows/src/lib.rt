//! Galileo satellites on E1 and E5a by the ephemerides of F/NAV, and on E1 and E5b or E1 alone by
//! those of I/NAV: the equations of their chains as the chains of GPS with other constants, and a
//! source of the rows of both systems.
#![tactic(auto)]

mod both;
mod chains;

pub use both::BothRows;
pub use chains::{gal_correction, gal_dual, gal_motion};
