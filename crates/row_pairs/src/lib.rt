//! Boxes shown empty by pairs of rows, which leave the clock offset out.
//!
//! Around the middle of a box each row that is possible at a point with an offset b bounds S b plus
//! a linear function of the point from both sides. Two rows conflict where the one's lower bound is
//! above the other's upper bound all over the box. A box is shown empty where, whichever q rows are
//! left out, two others conflict. How deep slabs at its faces may be shown empty is guessed from
//! the pairs' slopes. Places, ranges and offsets are in um.
#![tactic(auto)]

mod axes;
mod bounds;
mod conflicts;
mod forms;
mod laws;
mod pairs;
mod proposal;
mod reaches;
mod row_forms;
mod search;
mod shown;

pub use axes::middle_of;
pub use forms::Form;
pub use laws::{empty_or_not, nothing_fits};
pub use proposal::proposed_by_pairs;
pub use row_forms::form_of;
pub use shown::{fill_forms, forms_of, shown_empty_by_forms, shown_empty_by_pairs, without};
