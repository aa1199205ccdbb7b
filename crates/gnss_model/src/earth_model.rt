//! Constants of IS-GPS-200. They are those of `specs/EarthModel.antt`.

/// The earth's rotation rate, in 10^-22 rad/s.
pub const EARTH_RATE: i128 = 729_211_514_670_000_000;
