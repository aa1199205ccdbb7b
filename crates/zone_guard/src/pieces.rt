//! The pieces of a zone that has several.

ghost use Rattle.std.specs.Prelude.{◌≡◌, ◌*◌, ◌≤◌, length};

use crate::planes::HalfSpace;

/// How many pieces a group has, 1 to 64, and how many sides each of them, 1 to 16.
#[derive(Clone, Copy)]
pub struct Sizes {
    pub pieces: u32,
    pub each: u32,
    pub ghost some_pieces: { 1 ≤ pieces },
    pub ghost few_pieces: { pieces ≤ 64 },
    pub ghost some_sides: { 1 ≤ each },
    pub ghost few_sides: { each ≤ 16 },
}

/// A group: its sides, piece after piece.
#[derive(Drop)]
pub struct Group {
    pub sizes: Sizes,
    pub sides: Vec<HalfSpace>,
    pub ghost whole: { length sides.items ≡ sizes.pieces * sizes.each },
}
