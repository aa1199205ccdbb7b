//! The box in which the next epoch is searched.

ghost use Rattle.std.specs.Prelude.{◌≡◌, ◌≤◌, ◌≤ℤ◌, ◌+ℤ◌, ◌-ℤ◌, pos, neg_ℤ, Some, option_map};
ghost use Rattle.std.specs.Int.{int_min, int_max};
ghost use Rattle.subpaving.specs.LiveValues.{box_option};
ghost use Rattle.log_tokens.specs.Fields.{IsTime};
ghost use Rattle.grid_model.specs.Boxes.{grid_box};
ghost use Rattle.sat_model.specs.Contractors.{IsMeet, LiesIn};
ghost use Rattle.grid_model.specs.SearchBoxes.{IsSearchBox};
ghost use Rattle.grid_model.specs.Sizes.{IsBoxSize};
ghost use Rattle.moving_tube.specs.Hulls.{HullLies};
ghost use Rattle.moving_tube.specs.Reach.{fastest, longest_reach, reach_of};
ghost use Rattle.moving_tube.specs.Roots.{grown_box, reached_box};
ghost use Rattle.moving_tube.specs.Widened.{widened_box};

use crate::distance::reach;
use fix_interval::Exact;
use grid_model::{Box3, Pos, Span};
use range_contractor::{Tree, contract};

/// The greatest amount of a coordinate of a box, in um.
const FARTHEST: i64 = 10_000_000_000_000;

/// Where a clock offset doesn't count.
const ANY_CLOCK: Span = Span { lo: 0, hi: 0 };

/// So much less, as far as boxes go.
fn less(end: i64, reach: i64) -> i64
    requires end { IsBoxSize end }
    requires reach { (pos 0 ≤ℤ reach) × (reach ≤ℤ pos longest_reach) }
    ensures value { result ≡ int_max (end -ℤ reach) (neg_ℤ (pos 10000000000000)) }
    ensures at_most { result ≤ℤ end }
    ensures size { IsBoxSize result }
{
    (end - reach).max(-FARTHEST)
}

/// So much more, as far as boxes go.
fn more(end: i64, reach: i64) -> i64
    requires end { IsBoxSize end }
    requires reach { (pos 0 ≤ℤ reach) × (reach ≤ℤ pos longest_reach) }
    ensures value { result ≡ int_min (end +ℤ reach) (pos 10000000000000) }
    ensures at_least { end ≤ℤ result }
    ensures size { IsBoxSize result }
{
    (end + reach).min(FARTHEST)
}

/// The box, so much wider on each side, as far as boxes go.
fn widened(part: &Box3, reach: i64) -> Box3
    requires { (pos 0 ≤ℤ reach) × (reach ≤ℤ pos longest_reach) }
    ensures { grid_box result ≡ widened_box reach (grid_box part.now) }
{
    Box3 {
        lo: Pos {
            x: less(part.lo.x, reach),
            y: less(part.lo.y, reach),
            z: less(part.lo.z, reach),
        },
        hi: Pos {
            x: more(part.hi.x, reach),
            y: more(part.hi.y, reach),
            z: more(part.hi.z, reach),
        },
    }
}

/// What two boxes have in common.
fn met(part: &Box3, other: &Box3) -> Option<Box3>
    ensures { IsMeet (grid_box other.now) (grid_box part.now) (option_map grid_box result) }
{
    let tree: Tree<Exact> = Tree::Within(*other);
    contract(&tree, part, ANY_CLOCK)
}

/// What the search box has of the hull of a cover that is grown by the reach, in um, on each side:
/// none where they don't meet.
pub fn next_root(cover: &Box3, reach: i64, search: &Box3) -> Option<Box3>
    requires { (pos 0 ≤ℤ reach) × (reach ≤ℤ pos longest_reach) }
    ensures { IsMeet (grown_box reach (grid_box cover.now)) (grid_box search.now)
        (option_map grid_box result) }
{
    met(search, &widened(cover, reach))
}

/// The root of an epoch behind one that kept a part of the search box, at the times of both and by
/// the greatest speed in mm/s. It is there where the part lies in the search box, and lies there
/// too.
pub fn root_behind(
    kept: &Box3,
    speed: u32,
    from_ps: i128,
    to_ps: i128,
    search: &Box3,
) -> Option<Box3>
    requires speed { speed ≤ fastest }
    requires from { IsTime from_ps }
    requires to { IsTime to_ps }
    requires search { IsSearchBox (grid_box search.now) }
    ensures root { LiesIn (grid_box kept.now) (grid_box search.now) → box_option result
        ≡ Some (reached_box (reach_of speed from_ps to_ps) (grid_box kept.now)
        (grid_box search.now)) }
    ensures lies { HullLies (box_option result) (grid_box search.now) }
{
    next_root(kept, reach(speed, from_ps, to_ps), search)
}
