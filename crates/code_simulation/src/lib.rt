//! Codes of a made receiver: a pseudorange that leaves a wanted residual at a point, found by
//! halving.
#![tactic(auto)]

mod halving;
mod residuals;

pub use halving::{code_for, residual_exists};
