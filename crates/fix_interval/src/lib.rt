//! Intervals of whole numbers, rounded outward to the multiples of a grain: the trait `Interval`,
//! `Exact` whose grain is 1, `Coarse` whose grain is 65,536, and products and quotients of `Exact`
//! that hold every number within one unit of the exact result.
#![tactic(auto)]

mod advance;
mod coarse;
mod coarse_interval;
mod distance;
mod ends;
mod exact;
mod exact_interval;
mod grains;
mod interval;
mod place;
mod products;

pub use advance::{RATE_SCALE, advanced};
pub use coarse::{Coarse, CoarseArea};
pub use distance::squared_distance;
pub use exact::Exact;
pub use exact_interval::ExactArea;
pub use interval::Interval;
pub use place::Place;
pub use products::{UNIT, difference_of_products, product, sum_of_products};
