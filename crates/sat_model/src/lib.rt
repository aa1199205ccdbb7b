//! What a log speaks of (satellite rows, rules, steps, bounds), and, in `specs/`, what a log means: which
//! points fit, what the rows show of a box, when a log passes, and what it then covers.
//!
//! It stands on `grid_model` (boxes, spans and whole numbers) and `gnss_model` (satellites and
//! their equations), and gives their types on. Lengths and clock offsets are whole numbers of
//! micrometres (um), times are picoseconds (ps).
#![tactic(auto)]

mod half_spaces;
mod row_sums;
mod rows;
mod rules;
mod steps;

pub use gnss_model::{
    AGEING_BOUND, ANGLE_BOUND, ANGLE_SWING_BOUND, DELAY_BOUND, DRIFT_BOUND, EARTH_RATE,
    ECCENTRICITY_BOUND, Elements, GREATEST_ROOT_A, LEAST_ROOT_A, OFFSET_BOUND, RADIUS_SWING_BOUND,
    RATE_BOUND, Sat, Signal, Skip, System, WEEK, err_spare, spare,
};
pub use grid_model::{Box3, NoMemory, Pos, Span, Wide, root_u64, root_u128};
pub use half_spaces::HalfSpace;
pub use row_sums::{RowSum, Term};
pub use rows::{Row, SatEntry};
pub use rules::Rules;
pub use steps::Step;
