//! Finding half-spaces that hold all that fits in a box, with the sums of rows that certify them.
//!
//! The furthest point along a direction is sought by the dual simplex method for bounded variables
//! (V. Chvatal, Linear Programming, Freeman 1983, chapters 8 and 10), in the three coordinates and
//! the clock offset, once for each choice of rows left out that the sums so far don't cover. An
//! optimum in these four unknowns has four constraints, and a contradiction five (Helly's theorem).
//! The search rounds its numbers, and what it finds is tested before it is given out, so nothing has
//! to be known of it. Places and ranges are in um.
#![tactic(auto)]

mod basis;
mod certificates;
mod constraints;
mod costs;
mod dual_simplex;
mod fixed;
mod needed;
mod reach;
mod search;

pub use search::{Bound, bound_from_forms, find_bound};
