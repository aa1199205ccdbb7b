//! The mean motion (IS-GPS-200, table 20-IV), by divisions of the root of the earth's gravitational
//! constant.

ghost use Rattle.std.specs.Prelude.{◌≡◌, ℕ, ◌+◌, ◌*◌, ◌^◌, ◌<◌, ◌≤◌, ℤ, pos, ◌-ℤ◌, ◌≤ℤ◌};
ghost use Rattle.grid_model.specs.Intervals.{Between};
ghost use Rattle.gnss_model.specs.MeanMotion.{IsMotionOf, MeanMotion, MeanMotionOf};
ghost use Rattle.gnss_model.specs.RecordBounds.{LiesFrom, IsValue, least_root_a};
ghost use Rattle.sat_clock.specs.ClockSizes.{motion_size, motion_width, root_limit};
ghost use Rattle.sat_clock.specs.GravityRoots.{gravity_root};

use fix_interval::Exact;
use gnss_model::{Elements, System};
use grid_model::Wide;

/// The root of mu of GPS, in 10^-29 m^(3/2)/s, cut off.
const ROOT_OF_GRAVITY: u128 = 1_996_498_184_321_738_871_137_506_654_200_683_933;

/// That of Galileo.
const GALILEO_ROOT: u128 = 1_996_498_038_566_529_621_522_984_984_755_848_627;

/// A semi-major axis in 10^-24 m is divided by it, so that products with a root stay within 128
/// bits.
const AXIS_STEP: u128 = 10_000_000_000_000;

/// A cube in 10^-23 m^(3/2) is divided by it to be one in 10^-7.
const CUBE_STEP: u128 = 10_000_000_000_000_000;

/// The root of a system's mu.
fn gravity_root(system: System) -> u128
    ensures { result ≡ gravity_root system }
{
    match system {
        System::Gps => ROOT_OF_GRAVITY,
        System::Galileo(_) => GALILEO_ROOT,
    }
}

/// The cube of a root in 10^-12, in units of 10^-7: at most two units too small.
fn cube(root_a: u128) -> u128
    requires high { root_a ≤ root_limit }
    ensures below { result * 10 ^ 29 ≤ root_a * root_a * root_a }
    ensures above { root_a * root_a * root_a < (result + 2) * 10 ^ 29 }
{
    root_a * root_a / AXIS_STEP * root_a / CUBE_STEP
}

/// At most each mean motion of a root up to this one.
fn slowest(root_a: u128, system: System) -> u128
    requires low { least_root_a ≤ root_a }
    requires high { root_a ≤ root_limit }
    ensures holds { (s n : ℕ) → s ≤ root_a → IsMotionOf system (pos s) n → result ≤ n }
    ensures tight { gravity_root system * 10 ^ 29 < (result + 1)
        * (root_a * root_a * root_a + 2 * 10 ^ 29) }
    ensures low { 10 ^ 15 ≤ result }
    ensures high { result ≤ 17 * 10 ^ 17 }
{
    gravity_root(system) / (cube(root_a) + 2)
}

/// At least each mean motion of a root from this one on.
fn fastest(root_a: u128, system: System) -> u128
    requires low { least_root_a ≤ root_a }
    requires high { root_a ≤ root_limit }
    ensures holds { (s n : ℕ) → root_a ≤ s → IsMotionOf system (pos s) n → n ≤ result }
    ensures tight { result * (root_a * root_a * root_a) ≤ gravity_root system * 10 ^ 29 + result
        * (2 * 10 ^ 29) }
    ensures high { result ≤ 17 * 10 ^ 17 }
{
    gravity_root(system) / cube(root_a)
}

/// Every mean motion of a root, before its correction.
fn computed_motion(root_a: Wide, system: System) -> Exact
    requires { LiesFrom (pos least_root_a) (pos root_limit) root_a }
    ensures holds { (s : ℤ) → (n : ℕ) → IsValue root_a s → IsMotionOf system s n →
        Between result.lo result.hi (pos n) }
    ensures width { (result.hi -ℤ result.lo) ≤ℤ pos 4095 }
    ensures low { pos (10 ^ 15) ≤ℤ result.lo }
    ensures high { result.hi ≤ℤ pos (17 * 10 ^ 17) }
{
    let lo = slowest(root_a.hi as u128, system);
    let hi = fastest(root_a.lo as u128, system);
    Exact {
        lo: lo as i128,
        hi: hi as i128,
    }
}

/// Every mean motion of the ephemeris of a system's satellite, in 10^-22 rad/s: at most 4,096 units
/// wide, from 0 to 2 * 10^18 (IS-GPS-200, table 20-IV).
pub fn motion_of(el: &Elements, system: System) -> Exact
    ensures holds { (n : ℤ) → MeanMotionOf system el.now n → Between result.lo result.hi n }
    ensures width { (result.hi -ℤ result.lo) ≤ℤ pos motion_width }
    ensures low { pos 0 ≤ℤ result.lo }
    ensures high { result.hi ≤ℤ pos motion_size }
{
    computed_motion(el.root_a, system).plus(Exact::of_wide(el.dn))
}

/// That of the ephemeris of a GPS satellite.
pub fn mean_motion(el: &Elements) -> Exact
    ensures holds { (n : ℤ) → MeanMotion el.now n → Between result.lo result.hi n }
    ensures width { (result.hi -ℤ result.lo) ≤ℤ pos motion_width }
    ensures low { pos 0 ≤ℤ result.lo }
    ensures high { result.hi ≤ℤ pos motion_size }
{
    motion_of(el, System::Gps)
}
