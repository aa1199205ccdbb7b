//! The numbers of the tests, and faults that show no spans.

ghost use Rattle.std.specs.Prelude.{◌≡◌};
ghost use Rattle.paving_log_check.specs.Answers.{ShowsNoSpans};

use crate::verdict::Fault;
use grid_model::Span;

/// A log's rules aren't those of the settings.
pub const RULES_DIFFER: u8 = 50;
/// A row's span doesn't hold the checker's own one.
pub const ROW_NARROW: u8 = 53;
/// A row's error isn't the declared one.
pub const BOUND_DIFFERS: u8 = 54;
/// The root isn't the one that is given.
pub const ROOT_DIFFERS: u8 = 55;
/// A step's box isn't live.
pub const NOT_LIVE: u8 = 56;
/// A cut takes nothing, leaves nothing, or takes a slab that isn't shown empty.
pub const CUT_NOT_SHOWN: u8 = 57;
/// A box that is closed outside isn't shown empty.
pub const OUT_NOT_SHOWN: u8 = 58;
/// The clock offset of a box that is closed inside isn't shown.
pub const IN_NOT_SHOWN: u8 = 59;
/// The offsets of a closed box don't hold its clock hull.
pub const CLOCK_NARROW: u8 = 60;
/// A side that is split isn't longer than the width.
pub const BAD_SPLIT: u8 = 61;
/// There are more splits than the rules allow.
pub const OVER_BUDGET: u8 = 62;
/// A box is live behind the last step.
pub const NOT_CLOSED: u8 = 63;
/// The number of splits isn't the one that is said.
pub const COUNT_DIFFERS: u8 = 64;
/// Rows are renewed over a box that isn't in the root, or that a live box isn't in.
pub const BAD_RENEWAL: u8 = 65;
/// A bound isn't shown.
pub const BOUND_NOT_SHOWN: u8 = 66;

/// A fault that shows no spans.
pub fn plain_fault(line: u32, number: u8) -> Fault
    ensures line { result.line ≡ line }
    ensures number { result.number ≡ number }
    ensures no_spans { ShowsNoSpans result }
{
    Fault {
        number,
        line,
        theirs: Span { lo: 0, hi: 0 },
        ours: Span { lo: 0, hi: 0 },
    }
}
