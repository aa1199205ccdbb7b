//! What the program does: words, files and sinks go in, and a status comes out.
//!
//! `solve OBS NAV SETTINGS LOG` paves the epochs of a receiver's files and writes the log, and
//! `check` with the same words checks the log against the files. `track` and `retrack` do so for a
//! receiver that moves: each epoch is searched where the one before allows it to have come. `guard
//! OBS NAV SETTINGS ZONES LOG` checks the log so and tells of each epoch whether what fits lies
//! outside or inside zones. Each of these five takes `--station FILE`, by which rows are those of
//! single differences. `pave ROWS LOG` reads satellite rows, paves their epochs and writes the
//! log, and `judge LOG` judges a log with its rows taken as given.
#![tactic(auto)]

mod accepting;
mod check_texts;
mod checked;
mod checking;
mod chosen;
mod file_rows;
mod guarded;
mod guarding;
mod judging;
mod making;
mod making_texts;
mod pave;
mod rechecking;
mod solving;
mod telling;
mod texts;
mod top;
mod totals;
mod tracking;
mod unseen;
mod verdicts;
mod writing;
mod zone_lines;

pub use accepting::{solved_is_accepted, tracked_is_accepted};
pub use command_words::{stated_words_are_taken, taken_words_are_a_command};
pub use input_files::{Limits, Status};
pub use paving_log_check::{Fault, Verdict, judge};
pub use top::run;
pub use tube_searches::check_tube;
