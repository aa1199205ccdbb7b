//! Runs over objects in memory that have room left, and tests: runs over objects in memory that are
//! full, that move one byte a call or of which calls fail, and these objects themselves.
#![tactic(auto)]

#[cfg(test)]
mod cases;
#[cfg(test)]
mod memory;
pub mod roomy;
#[cfg(test)]
mod runs;
#[cfg(test)]
mod shelves;
#[cfg(test)]
mod texts;
