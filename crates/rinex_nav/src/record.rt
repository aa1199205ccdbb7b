//! A navigation record.

ghost use Rattle.std.specs.Prelude.{pos, ◌≤ℤ◌, ◌<ℤ◌};

use exact_decimal::Decimal;
use gnss_model::Sat;

/// The broadcast ephemeris of a GPS satellite, as its record in a navigation file gives it.
#[derive(Clone, Copy, Debug, PartialEq, Eq)]
pub struct NavRecord {
    pub sat: Sat,
    /// The clock time, in ps since 1980-01-06 00:00:00 GPS time.
    pub toc: i128,
    /// Whether the health is zero.
    pub healthy: bool,
    /// af0, af1, af2, Crs, dn, M0, Cuc, e, Cus, sqrtA, toe, Cic, Om0, Cis, i0, Crc, omega, OmDot,
    /// IDOT and TGD, in the units of IS-GPS-200 with semicircles as radians; a blank field is zero.
    pub fields: [Decimal; 20],
    pub ghost toc_from: { pos 0 ≤ℤ toc },
    pub ghost toc_under: { toc <ℤ pos 4000000000000000000000 },
}
