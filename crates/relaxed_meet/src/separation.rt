//! Offsets that part the clock spans: what shows a box empty without a root.

ghost use Rattle.std.specs.Prelude.{◌<◌, ◌≤◌, length, IsTrue};
ghost use Rattle.grid_model.specs.Boxes.{grid_box};
ghost use Rattle.sat_model.specs.ClockSpans.{IsShownEmpty};
ghost use Rattle.relaxed_meet.specs.Separated.{NoneLiesBetween};

use crate::counts::{count_above, count_up_to};
use crate::offsets::bounded;
use grid_model::{Box3, Span};
use sat_model::Row;

/// How many offsets are remembered: enough where up to 8 rows may be inconsistent.
const MOST_OFFSETS: usize = 9;

/// A certificate that a box is empty where up to q rows may be inconsistent: clock offsets o_0 to
/// o_q in um such that r + 1 clock spans end at or below o_r and q + 1 - r begin above it. So each
/// offset misses q + 1 spans: one above o_(r - 1) and up to o_r misses r that end below it and
/// q + 1 - r that begin above it. It may come from another box, and is tested anew.
#[derive(Clone, Copy, Debug, Default, PartialEq, Eq)]
pub(crate) struct Separation {
    /// A bit for each row that may be above, the lowest for the first row.
    above: u64,
    /// The same for those that may be below.
    below: u64,
    offsets: [i64; MOST_OFFSETS],
}

impl Separation {
    /// The rows of the spans with an end that is kept, and offsets between the ends: the greatest
    /// low ends and the least high ends, mirrored, each in falling order.
    pub(crate) fn of_ends(spans: &[Span], lows: &[i64], highs: &[i64]) -> Separation {
        Separation {
            above: from_low_end(spans, lows),
            below: to_high_end(spans, highs),
            offsets: offsets_between(lows, highs),
        }
    }

    /// The same rows, with offsets between these ends.
    pub(crate) fn moved(&self, lows: &[i64], highs: &[i64]) -> Separation {
        Separation {
            offsets: offsets_between(lows, highs),
            ..*self
        }
    }

    /// A bit for each row.
    pub(crate) fn rows(&self) -> u64 {
        self.above | self.below
    }

    /// Any rows below these above, and offsets before the low ends of these, in falling order.
    pub(crate) fn before(above: u64, lows: &[i64], q: u8) -> Separation {
        let last = usize::from(q);
        let mut offsets = [0; MOST_OFFSETS];
        for (rank, offset) in offsets.iter_mut().enumerate() {
            if rank <= last && last - rank < lows.len() {
                *offset = lows[last - rank].wrapping_sub(1);
            }
        }
        Separation {
            above,
            below: u64::MAX,
            offsets,
        }
    }

    /// Any rows above these below, and the high ends of these, mirrored and in falling order.
    pub(crate) fn behind(below: u64, highs: &[i64]) -> Separation {
        let mut offsets = [0; MOST_OFFSETS];
        for (rank, offset) in offsets.iter_mut().enumerate() {
            if rank < highs.len() {
                *offset = -1 - highs[rank];
            }
        }
        Separation {
            above: u64::MAX,
            below,
            offsets,
        }
    }

    /// Whether these rows and offsets show the box empty.
    pub(crate) fn shows_empty(&self, rows: &[Row], part: &Box3, q: u8) -> bool
        requires { (q < length rows.now) × (length rows.now ≤ 64) }
        ensures { IsTrue result → IsShownEmpty rows.now (grid_box part.now) q }
    {
        self.shows_none(rows, part, q, 0, 0)
    }

    /// Whether they show that no offset lies in the clock spans of all but at most `q` rows, of the
    /// offsets above one that `below` spans lie up to, and up to one that `above` spans lie above.
    pub(crate) fn shows_none(
        &self,
        rows: &[Row],
        part: &Box3,
        q: u8,
        below: usize,
        above: usize,
    ) -> bool
        requires { (q < length rows.now) × (length rows.now ≤ 64) }
        ensures { IsTrue result → NoneLiesBetween rows.now (grid_box part.now) q below above }
    {
        let last = usize::from(q);
        if last >= MOST_OFFSETS {
            return false;
        }
        for passed in above..(last + 1).saturating_sub(below) {
            let rank = last - passed;
            let offset = bounded(self.offsets[rank]);
            if count_up_to(rows, part, self.below, offset, rank + 1) <= rank {
                return false;
            }
            if count_above(rows, part, self.above, offset, passed + 1) <= passed {
                return false;
            }
        }
        true
    }
}

/// A bit for each span whose low end is kept.
fn from_low_end(spans: &[Span], lows: &[i64]) -> u64 {
    let Some(least) = lows.last() else {
        return 0;
    };
    let mut which = 0;
    let mut bit: u64 = 1;
    for span in spans {
        if *least <= span.lo {
            which |= bit;
        }
        bit <<= 1;
    }
    which
}

/// A bit for each span whose high end is kept, mirrored.
fn to_high_end(spans: &[Span], highs: &[i64]) -> u64 {
    let Some(least) = highs.last() else {
        return 0;
    };
    let mut which = 0;
    let mut bit: u64 = 1;
    for span in spans {
        if *least <= -1 - span.hi {
            which |= bit;
        }
        bit <<= 1;
    }
    which
}

/// For each rank the middle between the high end of the rank and the low end that goes with it.
fn offsets_between(lows: &[i64], highs: &[i64]) -> [i64; MOST_OFFSETS] {
    let mut offsets = [0; MOST_OFFSETS];
    for (rank, offset) in offsets.iter_mut().enumerate() {
        if rank < highs.len() && rank < lows.len() {
            *offset = middle(-1 - highs[rank], lows[lows.len() - 1 - rank]);
        }
    }
    offsets
}

/// A number about in the middle between two.
pub(crate) fn middle(a: i64, b: i64) -> i64 {
    a / 2 + b / 2
}
