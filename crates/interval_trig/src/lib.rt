//! Sine and cosine of intervals of angles: every value of every angle is held, and no result is
//! more than 16 units of 10^-16 wider than its argument.
#![tactic(auto)]

mod circle;
mod parts;
mod points;
mod quarters;
mod quotients;
mod sines;

pub use circle::circle_law;
pub use sines::{cosine, sine};
