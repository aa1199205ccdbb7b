//! The pseudorange from one code or two.

ghost use Rattle.std.specs.Prelude.{◌≡◌, ◌≤ℤ◌, ◌*◌, ◌^◌, ℤ, None, Some, pos, ◌-ℤ◌, ◌*ℤ◌};
ghost use Rattle.fix_interval.specs.Factors.{Holds};
ghost use Rattle.pseudorange_prep.specs.Ranges.{IsCode, IsNarrow};
ghost use Rattle.gnss_model.specs.Pseudorange.{IsPseudorange, IsRangeOf};
ghost use Rattle.grid_model.specs.Sizes.{IsWithin};
ghost use Rattle.gnss_model.specs.Systems.{first_square, second_square, squares_apart};

use fix_interval::Exact;
use gnss_model::{Message, System};
use grid_model::Wide;

/// A code times the square of the first frequency.
fn first_times(code: Wide, system: System) -> Wide
    requires { IsCode code.lo code.hi }
    ensures low { result.lo ≡ pos (first_square system) *ℤ code.lo }
    ensures high { result.hi ≡ pos (first_square system) *ℤ code.hi }
    ensures natural { pos 0 ≤ℤ result.lo }
    ensures most { result.hi ≤ℤ pos 1000000000000000000 }
{
    let System::Gps = system else {
        return Wide {
            lo: 23_716 * code.lo,
            hi: 23_716 * code.hi,
        };
    };
    Wide {
        lo: 5_929 * code.lo,
        hi: 5_929 * code.hi,
    }
}

/// A code times the square of the second.
fn second_times(code: Wide, system: System) -> Wide
    requires { IsCode code.lo code.hi }
    ensures low { result.lo ≡ pos (second_square system) *ℤ code.lo }
    ensures high { result.hi ≡ pos (second_square system) *ℤ code.hi }
    ensures natural { pos 0 ≤ℤ result.lo }
    ensures most { result.hi ≤ℤ pos 1000000000000000000 }
{
    let System::Galileo(message) = system else {
        return Wide {
            lo: 3_600 * code.lo,
            hi: 3_600 * code.hi,
        };
    };
    let Message::Fnav = message else {
        return Wide {
            lo: 13_924 * code.lo,
            hi: 13_924 * code.hi,
        };
    };
    Wide {
        lo: 13_225 * code.lo,
        hi: 13_225 * code.hi,
    }
}

/// The difference of the two squares.
fn squares_apart(system: System) -> i128
    ensures { result ≡ pos (squares_apart system) }
{
    match system {
        System::Gps => 2_329,
        System::Galileo(Message::Fnav) => 10_491,
        System::Galileo(Message::Inav) => 9_792,
    }
}

/// The pseudorange by one code, in um: the code itself (IS-GPS-200, 20.3.3.3.3).
pub fn single(code: Wide) -> Exact
    ensures holds { (x : ℤ) → IsPseudorange (record { first = code; second = None }) x →
        Holds result x }
    ensures low { result.lo ≡ code.lo }
    ensures high { result.hi ≡ code.hi }
{
    Exact::of_wide(code)
}

/// The ionosphere-free pseudorange by a system's codes, in um (IS-GPS-200, 20.3.3.3.3.3).
pub fn dual_of(first: Wide, second: Wide, system: System) -> Exact
    requires first_code { IsCode first.lo first.hi }
    requires second_code { IsCode second.lo second.hi }
    ensures holds { (x : ℤ) → IsRangeOf system (record { first = first; second = Some second }) x →
        Holds result x }
    ensures width { IsNarrow 1 first.lo first.hi → IsNarrow 1 second.lo second.hi →
        IsNarrow 8 result.lo result.hi }
    ensures low_size { IsWithin (2 * 10 ^ 14) result.lo }
    ensures high_size { IsWithin (2 * 10 ^ 14) result.hi }
{
    let one = Exact { lo: 1, hi: 1 };
    combination(first, second, system).times_over(one, squares_apart(system))
}

/// That by the codes of a GPS satellite on L1 and L2.
pub fn dual(first: Wide, second: Wide) -> Exact
    requires first_code { IsCode first.lo first.hi }
    requires second_code { IsCode second.lo second.hi }
    ensures holds { (x : ℤ) → IsPseudorange (record { first = first; second = Some second }) x →
        Holds result x }
    ensures width { IsNarrow 1 first.lo first.hi → IsNarrow 1 second.lo second.hi →
        IsNarrow 8 result.lo result.hi }
    ensures low_size { IsWithin (2 * 10 ^ 14) result.lo }
    ensures high_size { IsWithin (2 * 10 ^ 14) result.hi }
{
    dual_of(first, second, System::Gps)
}

/// The difference of the codes, each times the square of its frequency.
pub fn combination(first: Wide, second: Wide, system: System) -> Exact
    requires first_code { IsCode first.lo first.hi }
    requires second_code { IsCode second.lo second.hi }
    ensures low { result.lo ≡ (pos (first_square system) *ℤ first.lo)
        -ℤ (pos (second_square system) *ℤ second.hi) }
    ensures high { result.hi ≡ (pos (first_square system) *ℤ first.hi)
        -ℤ (pos (second_square system) *ℤ second.lo) }
{
    let one = first_times(first, system);
    let other = second_times(second, system);
    Exact {
        lo: one.lo - other.hi,
        hi: one.hi - other.lo,
    }
}
