//! East, north and up at a place, and azimuths from east over north.

ghost use Rattle.std.specs.Prelude.{◌≡◌, ◌+◌, ◌*◌, ◌≤◌, ◌≤ℤ◌, length};
ghost use Rattle.bound_directions.specs.Directions.{azimuth_count};

use crate::direction::Direction;
use crate::directions::{Azimuths, copied};
use crate::parts::{BILLION, Unit};
use arrayvec::ArrayVec;
use grid_model::Box3;

/// What z is times to be along the normal of the ellipsoid of WGS 84, in parts of 10^12: 1 / (1 - e^2)
/// with e^2 = f (2 - f), f = 1 / 298.257223563.
const STRETCH: i128 = 1_006_739_496_742;

/// 10^12.
const PARTS: i128 = 1_000_000_000_000;

/// The cosines of half of sixteen azimuths, as angles from east, in billionths. The sine of one is the
/// cosine of that which is four places from it.
static COSINES: [i64; 8] = [
    BILLION,
    923_879_533,
    707_106_781,
    382_683_432,
    0,
    -382_683_432,
    -707_106_781,
    -923_879_533,
];

/// The axes at a place.
#[derive(Clone, Copy)]
pub(crate) struct Horizon {
    east: Unit,
    north: Unit,
    up: Unit,
}

impl Horizon {
    /// The axes at the middle of a box: up is along the normal of the ellipsoid through its foot where
    /// the middle is near the ground. On the axis of the earth east is along y.
    pub(crate) fn around(root: &Box3) -> Horizon {
        let x = root.lo.x + root.hi.x;
        let y = root.lo.y + root.hi.y;
        let z = root.lo.z + root.hi.z;
        let east = if x == 0 && y == 0 {
            Unit::along(0, 1, 0)
        } else {
            Unit::along(-y, x, 0)
        };
        let up = Unit::along(x, y, stretched(z));
        Horizon {
            east,
            north: up.cross(&east),
            up,
        }
    }

    /// So many azimuths from east, up and down.
    pub(crate) fn all(&self, azimuths: Azimuths) -> ArrayVec<Direction, 64>
        ensures { length result.items ≡ azimuth_count azimuths + 2 }
    {
        let half = match azimuths {
            Azimuths::Four => self.half(2),
            Azimuths::Eight => self.half(4),
            Azimuths::Sixteen => self.half(8),
        };
        let up = self.up.mixed(BILLION, &self.up, 0);
        let mut all = with_opposites(&half);
        all.push(up);
        all.push(up.opposite());
        all
    }

    /// The first half of twice so many azimuths.
    fn half(&self, count: usize) -> ArrayVec<Direction, 64>
        requires { count ≤ 8 }
        ensures { length result.items ≡ count }
    {
        let mut half: ArrayVec<Direction, 64> = ArrayVec::new();
        for k in 0..count {
            half.push(self.azimuth(8 * k / count.max(1)));
        }
        half
    }

    /// The azimuth at a place among sixteen.
    fn azimuth(&self, place: usize) -> Direction {
        let place = place % 8;
        let cosine = COSINES[place];
        let sine = COSINES[place.abs_diff(4)];
        self.east.mixed(cosine, &self.north, sine)
    }
}

/// Directions, and behind them their opposites.
fn with_opposites(directions: &[Direction]) -> ArrayVec<Direction, 64>
    requires { length directions.now ≤ 8 }
    ensures { length result.items ≡ 2 * length directions.now }
{
    let mut both = copied(directions);
    for direction in directions {
        both.push(direction.opposite());
    }
    both
}

/// z, of twice a coordinate of a box, as along the normal.
fn stretched(z: i64) -> i64 {
    let stretched = i128::from(z)
        .wrapping_mul(STRETCH)
        .checked_div_euclid(PARTS)
        .unwrap_or(0);
    i64::try_from(stretched).unwrap_or(0)
}
