//! What every kind of interval keeps to, so that code can be proved once for all of them.

ghost use Rattle.std.specs.Prelude.{◌≡◌, ℕ, ◌+◌, ◌-◌, ◌^◌, ◌<◌, ◌≤◌, ℤ, pos, ◌+ℤ◌, ◌-ℤ◌, ◌*ℤ◌};
ghost use Rattle.std.specs.Prelude.{◌≤ℤ◌, ◌<ℤ◌, MatchOption};
ghost use Rattle.std.specs.Int.{int_min, int_max};
ghost use Rattle.grid_model.specs.Sizes.{IsWithin};
ghost use Rattle.grid_model.specs.Roots.{root};
ghost use Rattle.grid_model.specs.Rounding.{grain_floor, grain_ceil, IsMultipleOf};
ghost use Rattle.grid_model.specs.Squares.{least_square, greatest_square};

/// The whole numbers of um between two multiples of `GRAIN`, ends included.
///
/// Contracts see an interval by its ends `low` and `high`, and an area by `area_low` and
/// `area_high`.
pub trait Interval: Copy {
    /// The whole numbers of square um between two multiples of `GRAIN^2` that aren't negative.
    type Area: Copy;

    ghost low: { Self → ℤ };

    ghost high: { Self → ℤ };

    ghost area_low: { Self.Area → ℕ };

    ghost area_high: { Self.Area → ℕ };

    ghost GRAIN: { ℤ };

    ghost SLACK: { ℤ };

    /// The distance of two neighbouring ends, in um.
    const GRAIN: i64;

    /// How far from its target, in um, a face may stay after a contraction.
    const SLACK: i64;

    /// The least interval that holds the whole numbers from `lo` to `hi`.
    fn of(lo: i64, hi: i64) -> Self
        requires ordered { lo ≤ℤ hi }
        requires lo_size { IsWithin (2 ^ 47) lo }
        requires hi_size { IsWithin (2 ^ 47) hi }
        ensures low { low result ≡ grain_floor GRAIN lo }
        ensures high { high result ≡ grain_ceil GRAIN hi };

    /// The low end.
    fn lo(self) -> i64
        requires { IsWithin (2 ^ 62) (low self) }
        ensures { result ≡ low self };

    /// The high end.
    fn hi(self) -> i64
        requires { IsWithin (2 ^ 62) (high self) }
        ensures { result ≡ high self };

    /// The numbers that both hold, if there are any.
    fn meet(self, other: Self) -> Option<Self>
        ensures { MatchOption result (int_min (high self) (high other)
            <ℤ int_max (low self) (low other)) (λ r. (low r ≡ int_max (low self) (low other))
            × (high r ≡ int_min (high self) (high other))) };

    /// The least interval that holds what either holds.
    fn hull(self, other: Self) -> Self
        ensures low { low result ≡ int_min (low self) (low other) }
        ensures high { high result ≡ int_max (high self) (high other) };

    /// From the least to the greatest sum of members.
    fn add(self, other: Self) -> Self
        requires low_size { IsWithin (2 ^ 47) (low self +ℤ low other) }
        requires high_size { IsWithin (2 ^ 47) (high self +ℤ high other) }
        ensures low { low result ≡ low self +ℤ low other }
        ensures high { high result ≡ high self +ℤ high other };

    /// From the least to the greatest difference of members.
    fn sub(self, other: Self) -> Self
        requires low_size { IsWithin (2 ^ 47) (low self -ℤ high other) }
        requires high_size { IsWithin (2 ^ 47) (high self -ℤ low other) }
        ensures low { low result ≡ low self -ℤ high other }
        ensures high { high result ≡ high self -ℤ low other };

    /// From the least to the greatest square of a member.
    fn square(self) -> Self::Area
        requires low_size { IsWithin (2 ^ 47) (low self) }
        requires high_size { IsWithin (2 ^ 47) (high self) }
        ensures low { area_low result ≡ least_square (low self) (high self) }
        ensures high { area_high result ≡ greatest_square (low self) (high self) };

    /// From the least to the greatest sum of members.
    fn area_sum(a: Self::Area, b: Self::Area) -> Self::Area
        requires { area_high a + area_high b ≤ 2 ^ 95 }
        ensures low { area_low result ≡ area_low a + area_low b }
        ensures high { area_high result ≡ area_high a + area_high b };

    /// From the least difference of members that isn't negative to the greatest, if there is one.
    // The difference of natural numbers is 0 where it would be negative.
    fn area_less(a: Self::Area, b: Self::Area) -> Option<Self::Area>
        ensures { MatchOption result (area_high a < area_low b) (λ r.
            (area_low b ≤ area_high a)
            × (area_low r ≡ area_low a - area_high b)
            × (area_high r ≡ area_high a - area_low b)) };

    /// The numbers whose squares, or a number up to the next square, `a` holds.
    fn root(a: Self::Area) -> Self
        ensures low { low result ≡ grain_floor GRAIN (pos (root (area_low a))) }
        ensures high { high result ≡ grain_ceil GRAIN (pos (root (area_high a))) };

    ghost ordered: { (x : Self) → low x ≤ℤ high x };

    ghost area_ordered: { (a : Self.Area) → area_low a ≤ area_high a };

    ghost grain_low: { pos 1 ≤ℤ GRAIN };

    ghost grain_high: { GRAIN ≤ℤ pos (2 ^ 20) };

    ghost slack: { SLACK ≡ pos 16 *ℤ GRAIN };

    ghost whole_low: { (x : Self) → IsMultipleOf GRAIN (low x) };

    ghost whole_high: { (x : Self) → IsMultipleOf GRAIN (high x) };

    ghost area_whole_low: { (a : Self.Area) → IsMultipleOf (GRAIN *ℤ GRAIN) (pos (area_low a)) };

    ghost area_whole_high: { (a : Self.Area) → IsMultipleOf (GRAIN *ℤ GRAIN) (pos (area_high a)) };
}
