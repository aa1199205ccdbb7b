//! Judges a log: whether its steps show what it claims, and else the first line that fails a test;
//! and checks it against files in the same way.
#![tactic(auto)]

mod blocks;
mod bounds;
mod claims;
mod closing;
mod counts;
mod epochs;
mod events;
mod faults;
mod files;
mod folds;
mod gps;
mod logs;
mod renewals;
mod rows_test;
mod sat_lines;
mod steps;
mod verdict;
mod walks;

pub use files::check_with;
pub use folds::judged_folds;
pub use gps::{check, check_by};
pub use logs::judge;
pub use verdict::{Fault, Verdict};
pub use walks::LogWalk;
