//! Pseudoranges, when their signals were sent, and the pseudoranges less the clock's offset:
//! intervals that hold every value which the printed equations allow. Lengths are in um, times in
//! ps.
#![tactic(auto)]

mod ranges;
mod times;

pub use ranges::{combination, dual, dual_of, single};
pub use times::{corrected, sent_at};
