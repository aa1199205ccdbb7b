//! The subpaving of an epoch: the boxes that no step has closed yet, while the steps of a log are
//! taken one after another.
#![tactic(auto)]

mod cuts;
mod inside;
mod live;
mod moved;

pub use cuts::{is_proper_cut, left_by, slab_of};
pub use inside::lies_in;
pub use live::Live;
pub use moved::box_under;
