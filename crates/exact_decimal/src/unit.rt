//! The units of the fields of navigation and observation files.

ghost use Rattle.std.specs.Prelude.{◌≡◌, ◌≤◌, ◌^◌};

/// What one unit of a whole number is, and the greatest amount in it.
#[derive(Clone, Copy, Debug, PartialEq, Eq)]
pub enum Unit {
    /// 10^-6 m, up to 10^9 m.
    Length,
    /// 10^-16, also of a radian, up to 64.
    Ratio,
    /// 10^-22 per s, up to 10^-3 per s.
    Rate,
    /// 10^-28 per s^2, up to 10^-10 per s^2.
    Drift,
    /// 10^-12 s, up to 10^7 s.
    Time,
    /// 10^-16 s, up to 1 s.
    Clock,
    /// 10^-12 m^(1/2), up to 10^4 m^(1/2).
    RootA,
}

/// The amount passes the unit's bound.
#[derive(Clone, Copy, Debug, PartialEq, Eq)]
pub struct Range;

impl Unit {
    ghost use Rattle.exact_decimal.specs.Units.{decimals_of, bound_of};

    /// One unit is a ten to the power of minus this many, in SI units.
    pub fn decimals(self) -> u8
        ensures value { result ≡ decimals_of self }
        ensures bound { result ≤ 28 }
    {
        match self {
            Unit::Length => 6,
            Unit::Ratio | Unit::Clock => 16,
            Unit::Rate => 22,
            Unit::Drift => 28,
            Unit::Time | Unit::RootA => 12,
        }
    }

    /// The greatest amount, in units.
    pub fn bound(self) -> u64
        ensures value { result ≡ bound_of self }
        ensures least { 10 ^ 15 ≤ result }
        ensures greatest { result ≤ 10 ^ 19 }
    {
        match self {
            Unit::Length => 1_000_000_000_000_000,
            Unit::Ratio => 640_000_000_000_000_000,
            Unit::Rate | Unit::Time => 10_000_000_000_000_000_000,
            Unit::Drift => 1_000_000_000_000_000_000,
            Unit::Clock | Unit::RootA => 10_000_000_000_000_000,
        }
    }
}
