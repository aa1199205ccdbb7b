//! What is found of a zone or a direction over the epochs of a log.

ghost use Rattle.std.specs.Prelude.{◌≡◌, ◌<◌, ◌^◌, ◌-◌, List, ◌++◌};
ghost use Rattle.grid_model.specs.Boxes.{GridBox};
ghost use Rattle.grid_model.specs.declared.boxes.Pos.{Pos};
ghost use Rattle.zone_guard.specs.Reaches.{IsReach};
ghost use Rattle.zone_guard.specs.Totals.{with_answer, joined};

use crate::found::Counts;
use crate::planes::Extent;
use crate::zone::ZoneAnswer;

/// One epoch more, in which a zone is so. There are to be fewer than 2^32 epochs.
pub fn with_answer(counts: &Counts, found: &ZoneAnswer) -> Counts
    requires outside { counts.now.outside < 2 ^ 32 - 1 }
    requires inside { counts.now.inside < 2 ^ 32 - 1 }
    requires undecided { counts.now.undecided < 2 ^ 32 - 1 }
    ensures { result ≡ with_answer counts.now found.now }
{
    let mut more = *counts;
    match found {
        ZoneAnswer::Outside => more.outside += 1,
        ZoneAnswer::Inside => more.inside += 1,
        ZoneAnswer::Open => more.undecided += 1,
    }
    more
}

/// The lesser of the low ends and the greater of the high ends.
fn join(before: &Option<Extent>, found: &Option<Extent>) -> Option<Extent>
    ensures { result ≡ joined before.now found.now }
{
    match (before, found) {
        (None, _) => *found,
        (_, None) => *before,
        (Some(a), Some(b)) => Some(Extent {
            least: a.least.min(b.least),
            greatest: a.greatest.max(b.greatest),
        }),
    }
}

/// The reach of the boxes of one epoch, and of those before.
pub fn joined(before: &Option<Extent>, found: &Option<Extent>) -> Option<Extent>
    ensures value { result ≡ joined before.now found.now }
    // It is the reach of all boxes.
    ensures whole { (a : Pos) (boxes more : List GridBox) → IsReach a boxes before.now
        → IsReach a more found.now → IsReach a (boxes ++ more) result }
{
    join(before, found)
}
