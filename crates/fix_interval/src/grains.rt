//! Ends, amounts and roots that are counted in grains of 65,536 um, or in squares of a grain.

ghost use Rattle.std.specs.Prelude.{◌≡◌, ◌*◌, ◌^◌, ◌≤◌, pos, ◌*ℤ◌};
ghost use Rattle.grid_model.specs.Sizes.{IsWithin};
ghost use Rattle.grid_model.specs.Squares.{least_end, greatest_end};
ghost use Rattle.grid_model.specs.Roots.{root};
ghost use Rattle.grid_model.specs.Rounding.{grain_floor, grain_ceil};

use grid_model::root_u64;

/// One grain, in um.
pub(crate) const GRAIN: i64 = 65_536;

/// The greatest number of grains that is at most `um`.
pub(crate) fn grains_below(um: i64) -> i64
    requires { IsWithin (2 ^ 47) um }
    ensures floor { result *ℤ pos 65536 ≡ grain_floor (pos 65536) um }
    ensures size { IsWithin (2 ^ 31) result }
{
    um.div_euclid(GRAIN)
}

/// The least amount of a number from lo to hi.
pub(crate) fn least_amount(lo: i64, hi: i64) -> u64
    requires lo_size { IsWithin (2 ^ 31) lo }
    requires hi_size { IsWithin (2 ^ 31) hi }
    ensures value { result ≡ least_end lo hi }
    ensures size { result ≤ 2 ^ 31 }
{
    lo.max(-hi).max(0) as u64
}

/// The greatest amount of a number from lo to hi.
pub(crate) fn greatest_amount(lo: i64, hi: i64) -> u64
    requires lo_size { IsWithin (2 ^ 31) lo }
    requires hi_size { IsWithin (2 ^ 31) hi }
    ensures value { result ≡ greatest_end lo hi }
    ensures size { result ≤ 2 ^ 31 }
{
    hi.max(-lo).max(0) as u64
}

/// The root of so many squares of a grain, in grains rounded down.
pub(crate) fn root_below(area: u64) -> i64
    ensures { (result *ℤ pos 65536) ≡ grain_floor (pos 65536) (pos (root (area * 4294967296))) }
{
    root_u64(area) as i64
}

/// The whole-number root of so many squares of a grain, which is in um, in grains rounded up.
pub(crate) fn root_above(area: u64) -> i64
    ensures { (result *ℤ pos 65536) ≡ grain_ceil (pos 65536) (pos (root (area * 4294967296))) }
{
    let root = root_u64(area);
    let left = area - root * root;
    // The root in um is at most root grains where (root * 65,536 + 1)^2 is more than the area.
    if left * 32_768 > root {
        root as i64 + 1
    } else {
        root as i64
    }
}
