//! The bounds of the numbers of a broadcast ephemeris, in the units of its fields. They are those
//! of `specs/RecordBounds.antt`.

/// af0, in 10^-16 s: 10^-2 s.
pub const OFFSET_BOUND: i128 = 100_000_000_000_000;

/// af1, in 10^-22 per s: 10^-8 per s.
pub const DRIFT_BOUND: i128 = 100_000_000_000_000;

/// af2, in 10^-28 per s^2: 10^-13 per s^2.
pub const AGEING_BOUND: i128 = 1_000_000_000_000_000;

/// TGD, in 10^-16 s: 10^-5 s.
pub const DELAY_BOUND: i128 = 100_000_000_000;

/// M0, Om0, i0 and omega, in 10^-16 rad: 7 rad.
pub const ANGLE_BOUND: i128 = 70_000_000_000_000_000;

/// dn, OmDot and IDOT, in 10^-22 per s: 10^-7 per s.
pub const RATE_BOUND: i128 = 1_000_000_000_000_000;

/// Cuc, Cus, Cic and Cis, in 10^-16 rad: 10^-3 rad.
pub const ANGLE_SWING_BOUND: i128 = 10_000_000_000_000;

/// Crc and Crs, in um: 5,000 m.
pub const RADIUS_SWING_BOUND: i128 = 5_000_000_000;

/// e, in 10^-16: 0.2. It isn't negative.
pub const ECCENTRICITY_BOUND: i128 = 2_000_000_000_000_000;

/// sqrtA at least, in 10^-12 m^(1/2): 5,000 m^(1/2).
pub const LEAST_ROOT_A: i128 = 5_000_000_000_000_000;

/// sqrtA at most, in 10^-12 m^(1/2): 6,600 m^(1/2).
pub const GREATEST_ROOT_A: i128 = 6_600_000_000_000_000;

/// A week, in ps. toe is from 0 to under a week.
pub const WEEK: i128 = 604_800_000_000_000_000;
