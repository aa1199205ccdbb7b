//! By how much the troposphere, and the ionosphere, delay a signal more than straight up, for the
//! elevation of its satellite, enclosed over the points of a box. The troposphere's mapping is that
//! of Black and Eisner (1984) as RTCA DO-229 prints it in appendix A.4.2.4, the ionosphere's that
//! of a thin shell in A.4.4.10.4.
//!
//! `lines` has the up direction and the line of sight, `elevation` the sine of the elevation,
//! `slants` the root below the line, `mapping` the whole. `specs/Mapping` and `specs/Layers` of
//! `gnss_model` have the equations and the constants in which the layers differ.
#![tactic(auto)]

mod delays;
mod elevation;
mod existence;
mod far;
mod lines;
mod mapping;
mod slants;
#[cfg(test)]
mod tests;
#[cfg(test)]
mod vectors;

pub use delays::mapped_delay;
pub use existence::mapping_exists;
pub use far::is_far_from_origin;
pub use mapping::mapped;
