//! What is left of a text.

ghost use Rattle.std.specs.Prelude.{◌+◌, ◌≤◌, length};

use log_lines::Header;
/// What is left of a text, and the number of its first line.
#[derive(Clone, Copy)]
pub struct Lines<'a> {
    pub rest: &'a [u8],
    pub number: u32,
    ghost room: { number + length rest.now ≤ 4000000001 },
}

/// The first line of a block, and its number.
#[derive(Clone, Copy)]
pub struct Opening {
    pub few: bool,
    pub header: Header,
    pub line: u32,
}
