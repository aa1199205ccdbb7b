//! One line of a log: its value, its one spelling, and where it may come.
#![tactic(auto)]

mod header;
mod limits;
mod line;
mod order;
mod reading;
mod rows;
mod write;

pub use header::rules;
pub use limits::Limits;
pub use line::{
    ClosingLine, Corners, Fault, Form, Header, Kind, LineName, LogForm, LogLine, Place,
};
pub use order::form_of;
pub use reading::line_at;
pub use step_lines::{Line, step_line};
pub use write::{done_line, epoch_line, head_lines, renew_line, root_line, sat_line};
