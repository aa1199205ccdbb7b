//! Writes the log of a paving and its report as it is made: the head, and for each epoch its
//! satellites, its root, the steps, the rows that are renewed among them, and the bounds that are
//! found over what is kept. The lines are gathered and go out in pieces of up to 64 KiB, the log's
//! before the report's. The epochs come from a source, the next one when the one before is finished.
//! The source also renews the rows of the epoch in hand.
#![tactic(auto)]

mod blocks;
mod bounds;
mod closing;
mod epochs;
mod fault;
mod in_use;
mod kept;
mod known_rows;
mod last_renewal;
mod laws;
mod left;
mod outcome;
mod pen;
mod steps;
mod wanted;
mod write;
mod writer;

pub use blocks::{Blocks, LogBlocks};
pub use fault::WriteFault;
pub use known_rows::begun_logs_go_on;
pub use laws::runs_cut_few;
pub use wanted::Wanted;
pub use write::write_log;
