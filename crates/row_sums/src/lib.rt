//! Half-spaces that hold all that fits in a box, certified by sums of rows that leave the clock
//! offset out.
//!
//! Around the middle of a box each row that is possible at a point with an offset b bounds S b plus
//! a linear function of the point from both sides. A sum of some rows whose multipliers add up to
//! zero bounds a linear function of the point alone. A half-space holds what fits where each of its
//! sums shows it, and, whichever q rows are left out, one of them has all its rows. Such a
//! certificate is tested by some multiplications, whoever found it (A. Schrijver, Theory of Linear
//! and Integer Programming, Wiley 1986, chapter 7). Places, ranges and offsets are in um.
#![tactic(auto)]

mod adding;
mod axes;
mod choosing;
mod covered;
mod disjoint;
mod form_sum;
mod one_sum;
mod row_sets;
mod shown;
mod totals;

pub use covered::uncovered_choice;
pub use shown::{forms_show, shows_half_space};
