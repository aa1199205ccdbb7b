//! Observation files of RINEX 3: the epochs with the wanted observations of GPS satellites, or of
//! GPS and Galileo satellites, as exact decimals, and the approximate position of the header.
#![tactic(auto)]

mod blocks;
mod event;
mod found;
mod head;
mod header;
mod obs;
mod position;
mod read;
mod satellite;
mod satellites;
mod sought;
mod types;

pub use obs::{Obs, ObsEpoch, SatObs};
pub use read::{
    FIRST_EPOCH, LAST_EPOCH, read_obs, read_obs_between, read_obs_both, read_obs_of, read_station,
};
pub use sought::Sought;
