//! What the navigation and the observation files of RINEX 3 share: lines, columns and labels,
//! dates, faults, the header, and where a file ends.
#![tactic(auto)]

mod body;
mod counts;
mod dates;
mod fault;
mod fields;
mod header;
mod lines;

pub use body::Body;
pub use counts::{four_digits, satellite_number, three_digits, two_digits};
pub use dates::{BadDate, gps_ps};
pub use fault::{Fault, ReadError, Refusal};
pub use fields::{
    column, columns, is_blank_byte, is_blank_text, is_labelled, is_printable_text, label,
};
pub use header::{behind_header, behind_version, behind_version_of, is_short};
pub use lines::{Line, Lines};
