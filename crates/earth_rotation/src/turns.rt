//! The place, turned in two rounds (IS-GPS-200, 20.3.3.4.3.3.2): the correction for the earth's
//! rotation that is often named after Sagnac.

ghost use Rattle.std.specs.Prelude.{ℕ, ◌≡◌, ◌≤◌, ℤ, pos, true};
ghost use Rattle.grid_model.specs.Boxes.{grid_box, box_holds};
ghost use Rattle.grid_model.specs.Lengths.{spare_of};
ghost use Rattle.gnss_model.specs.Turn.{Turn, IsTurnedOver};
ghost use Rattle.grid_model.specs.declared.boxes.Pos.{Pos};
ghost use Rattle.fix_interval.specs.Factors.{Holds, HasEnds, HasAmount};
ghost use Rattle.fix_interval.specs.Places.{HoldsPlace, PlaceEnds, PlaceAmount};
ghost use Rattle.earth_rotation.specs.TurnSizes.{turn_reach, reach_after, near_reach, narrow_width};
ghost use Rattle.earth_rotation.specs.RoundSizes.{range_amount, turned_width};

use crate::angles::{cosine_beside, earth_angle, small_sine};
use crate::ranges::range;
use fix_interval::{Exact, Place, difference_of_products, sum_of_products};
use grid_model::Box3;

/// The place, turned about the axis of the earth by the flight time over a range.
pub(crate) fn turned_over(place: Place, range: Exact) -> Place
    requires size { PlaceAmount turn_reach place }
    requires range_size { HasAmount range_amount range }
    ensures holds { (r : ℕ) (x y z tx ty : ℤ) → Holds range (pos r) → HoldsPlace place x y z →
        IsTurnedOver r x y tx ty → HoldsPlace result tx ty z }
    ensures same_z { result.z ≡ place.z }
    ensures sizes { (n : ℕ) → n ≤ turn_reach → PlaceAmount n place →
        PlaceAmount (reach_after n) result }
    ensures narrow { (v : ℕ) → PlaceEnds near_reach narrow_width place →
        HasEnds range_amount v range → PlaceEnds (reach_after near_reach) (turned_width v) result }
{
    let sine = small_sine(earth_angle(range));
    let cosine = cosine_beside(sine);
    Place {
        x: sum_of_products(place.x, cosine, place.y, sine),
        y: difference_of_products(place.y, cosine, place.x, sine),
        z: place.z,
    }
}

/// Every place in um that a member of `unturned`, the place when the signal was sent, has in the
/// earth-fixed frame of the time when it is received at a grid point of the box. The coordinates of
/// `unturned` are within 6 * 10^13 um. For coordinates at most 1,000 um wide and within 52,300 km
/// none becomes wider than 2,000 um and a 40,000th of the longest side of the box.
pub fn turned(unturned: Place, part: &Box3) -> Place
    requires { PlaceAmount turn_reach unturned }
    ensures holds { (p : Pos) (x y z tx ty : ℤ) (r : ℕ) → box_holds (grid_box part.now) p ≡ true →
        HoldsPlace unturned x y z → Turn p x y z tx ty r → HoldsPlace result tx ty z }
    ensures same_z { result.z ≡ unturned.z }

    // The turn hardly changes the size of a coordinate.
    ensures sizes { (n : ℕ) → n ≤ turn_reach → PlaceAmount n unturned →
        PlaceAmount (reach_after n) result }
    ensures narrow { PlaceEnds near_reach narrow_width unturned →
        PlaceEnds (reach_after near_reach) (spare_of (grid_box part.now)) result }
{
    let first = turned_over(unturned, range(unturned, part));
    turned_over(unturned, range(first, part))
}
