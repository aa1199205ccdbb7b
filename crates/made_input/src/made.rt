//! What is made.

use grid_model::Pos;

/// An observation file, a navigation file and settings, as texts, and the place of their receiver,
/// in um.
#[derive(Debug, Drop)]
pub struct Made {
    pub obs: Vec<u8>,
    pub nav: Vec<u8>,
    pub settings: Vec<u8>,
    pub place: Pos,
}
