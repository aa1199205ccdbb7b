//! The satellite's place when it sent, and as seen from a box.

ghost use Rattle.std.specs.Prelude.{ℕ, ◌≡◌, ◌*◌, ◌^◌, ℤ, pos, ◌-ℤ◌, ◌≤ℤ◌, true};
ghost use Rattle.broadcast_orbit.specs.OrbitSizes.{IsOrbitDistance, time_width};
ghost use Rattle.elevation_mapping.specs.Places.{IsFarFromPlace};
ghost use Rattle.fix_interval.specs.Places.{HoldsPlace, PlaceEnds};
ghost use Rattle.earth_rotation.specs.TurnSizes.{near_reach, narrow_width, reach_after};
ghost use Rattle.fix_interval.specs.Factors.{Holds};
ghost use Rattle.grid_model.specs.Boxes.{grid_box, box_holds};
ghost use Rattle.grid_model.specs.Lengths.{spare_of};
ghost use Rattle.gnss_model.specs.MeanMotion.{MeanMotionOf};
ghost use Rattle.gnss_model.specs.OrbitChain.{OrbitChain};
ghost use Rattle.grid_model.specs.SearchBoxes.{IsSearchBox};
ghost use Rattle.gnss_model.specs.Turn.{Turn};
ghost use Rattle.grid_model.specs.declared.boxes.Pos.{Pos};
ghost use Rattle.sat_rows.specs.RowSizes.{IsNearOrbit};

use broadcast_orbit::place;
use earth_rotation::turned;
use fix_interval::{Exact, Place};
use gnss_model::{Elements, System};
use grid_model::Box3;
use sat_clock::motion_of;

/// Every place of the satellite when the signal was sent.
pub(crate) fn sent_place(el: &Elements, t: Exact, system: System) -> Place
    requires near { IsNearOrbit el.now t.lo t.hi }
    requires width { (t.hi -ℤ t.lo) ≤ℤ pos time_width }
    ensures holds { (n time x y z : ℤ) → MeanMotionOf system el.now n → Holds t time
        → OrbitChain el.now n time x y z → HoldsPlace result x y z }
    ensures ends { PlaceEnds near_reach narrow_width result }
    ensures distance { (x y z : ℤ) → HoldsPlace result x y z → IsOrbitDistance x y z }
{
    place(el, motion_of(el, system), t)
}

/// The same as seen from the points of the box, which are at least 5,000 km away.
pub(crate) fn seen_place(sent: Place, part: &Box3) -> Place
    requires ends { PlaceEnds near_reach narrow_width sent }
    requires distance { (x y z : ℤ) → HoldsPlace sent x y z → IsOrbitDistance x y z }
    requires part { IsSearchBox (grid_box part.now) }
    ensures holds { (p : Pos) (x y z tx ty : ℤ) (r : ℕ) → box_holds (grid_box part.now) p ≡ true
        → HoldsPlace sent x y z → Turn p x y z tx ty r → HoldsPlace result tx ty z }
    ensures ends { PlaceEnds (reach_after near_reach) (spare_of (grid_box part.now)) result }
    ensures far { IsFarFromPlace (5 * 10 ^ 12) result (grid_box part.now) }
{
    turned(sent, part)
}
