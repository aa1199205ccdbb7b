//! What the judge says of a log.

use grid_model::Span;

/// A log is right, with so many boxes closed inside or at the edge, or has a fault.
#[derive(Clone, Copy, Debug, PartialEq, Eq)]
pub enum Verdict {
    Yes { boxes: u64 },
    No(Fault),
}

/// The first line that fails a test, from 1, and the least number of such a test. `theirs` and
/// `ours` are the spans that a test compared, in um, and [0, 0] where it compared none.
#[derive(Clone, Copy, Debug, PartialEq, Eq)]
pub struct Fault {
    pub number: u8,
    pub line: u32,
    pub theirs: Span,
    pub ours: Span,
}
