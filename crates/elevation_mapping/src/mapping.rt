//! The mapping over a box.

ghost use Rattle.std.specs.Prelude.{ℕ, ◌≡◌, ◌*◌, ◌^◌, ◌≤◌, ℤ, pos, ◌-ℤ◌, ◌≤ℤ◌, true};
ghost use Rattle.grid_model.specs.Angles.{unit};
ghost use Rattle.grid_model.specs.Boxes.{grid_box, box_holds};
ghost use Rattle.grid_model.specs.Ranges.{range_to};
ghost use Rattle.grid_model.specs.Lengths.{longest_length, spare_of};
ghost use Rattle.grid_model.specs.Rounding.{IsTightQuotient};
ghost use Rattle.grid_model.specs.declared.boxes.Pos.{Pos};
ghost use Rattle.fix_interval.specs.Factors.{Holds, HasAmount};
ghost use Rattle.fix_interval.specs.Places.{HoldsPlace, PlaceEnds};
ghost use Rattle.grid_model.specs.SearchBoxes.{IsFarFromOrigin};
ghost use Rattle.elevation_mapping.specs.Places.{IsFarFromPlace};
ghost use Rattle.gnss_model.specs.Layers.{layer_scale};
ghost use Rattle.gnss_model.specs.Mapping.{Mapping, IsMapped};
ghost use Rattle.elevation_mapping.specs.MappingSizes.{turned_reach, mapped_amount, mapped_width};
ghost use Rattle.elevation_mapping.specs.SineSizes.{least_slant, slant_amount};

use crate::elevation::elevation_sine;
use crate::lines::{offsets, place_of, raised};
use crate::slants::slants;
use fix_interval::{Exact, Place, UNIT};
use gnss_model::Layer;
use grid_model::Box3;

/// 1.001 of the troposphere, and 1 of the ionosphere, times 10^16.
fn scale_of(layer: Layer) -> i128
    ensures { result ≡ pos (layer_scale layer * 10 ^ 13) }
{
    match layer {
        Layer::Troposphere => 10_010_000_000_000_000,
        Layer::Ionosphere => 10_000_000_000_000_000,
    }
}

/// Every mapping of the layer, in 10^-16, of a slant: 1.001, or 1, over it.
fn over_slants(slants: Exact, layer: Layer) -> Exact
    requires low_size { pos (least_slant layer) ≤ℤ slants.lo }
    requires high_size { slants.hi ≤ℤ pos slant_amount }
    ensures holds { (slant : ℕ) (factor : ℤ) → Holds slants (pos slant)
        → IsMapped layer slant factor → Holds result factor }
    ensures tight { IsTightQuotient (pos unit) (pos unit) slants.lo slants.hi
        (pos (layer_scale layer * 10 ^ 13)) result.lo result.hi }
    ensures amount { HasAmount mapped_amount result }
{
    let one = Exact { lo: UNIT, hi: UNIT };
    one.over(slants, scale_of(layer))
}

/// Every mapping of the layer, in 10^-16, of a satellite at a member of `turned`, in um, seen from
/// a grid point of the box. It is at most 10^11 and 10^16 * side / K wide, the longest side being
/// in um and K 3 * 10^9 of the troposphere and 175 * 10^9 of the ionosphere.
///
/// Each grid point is at least 6,000 km from the origin (`is_far_from_origin` is the test) and
/// 5,000 km from each member of the place. No side is longer than 200 km. Each coordinate of the
/// place is within 6.1 * 10^13 um, and at most 2,000 um and a 40,000th of the longest side wide: as
/// `earth_rotation::turned` makes it.
pub fn mapped(turned: Place, part: &Box3, layer: Layer) -> Exact
    requires from_origin { IsFarFromOrigin (6 * 10 ^ 12) (grid_box part.now) }
    requires from_place { IsFarFromPlace (5 * 10 ^ 12) turned (grid_box part.now) }
    requires place { PlaceEnds turned_reach (spare_of (grid_box part.now)) turned }
    requires short { longest_length (grid_box part.now) ≤ 2 * 10 ^ 11 }
    ensures holds { (p : Pos) (x y z factor : ℤ) → box_holds (grid_box part.now) p ≡ true →
        HoldsPlace turned x y z → Mapping layer p x y z (range_to x y z p) factor
        → Holds result factor }
    ensures amount { HasAmount mapped_amount result }
    ensures width { (result.hi -ℤ result.lo) ≤ℤ pos (mapped_width layer (grid_box part.now)) }
{
    let points = place_of(part);
    let up = Place {
        x: points.x,
        y: points.y,
        z: raised(points.z),
    };
    let sine = elevation_sine(up, offsets(turned, points));
    over_slants(slants(sine, layer), layer)
}
