//! Tests alone: decimals of files, intervals, sines and cosines of angles, and directions around a box.
#![tactic(auto)]

#[cfg(test)]
mod decimals;
#[cfg(test)]
mod direction_vectors;
#[cfg(test)]
mod directions;
#[cfg(test)]
mod intervals;
#[cfg(test)]
mod sine_vectors;
#[cfg(test)]
mod sines;
