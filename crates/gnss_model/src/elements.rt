//! A broadcast ephemeris in whole numbers.

ghost use Rattle.std.specs.Prelude.{◌≡◌, pos, ◌+ℤ◌, ◌≤ℤ◌, ◌<ℤ◌};
ghost use Rattle.gnss_model.specs.RecordBounds.{LiesFrom, IsField, IsNearTime, offset_bound};
ghost use Rattle.gnss_model.specs.RecordBounds.{drift_bound, ageing_bound, delay_bound};
ghost use Rattle.gnss_model.specs.RecordBounds.{angle_bound, rate_bound, angle_swing_bound};
ghost use Rattle.gnss_model.specs.RecordBounds.{radius_swing_bound, eccentricity_bound};
ghost use Rattle.gnss_model.specs.RecordBounds.{least_root_a, greatest_root_a, week, time_bound};

use grid_model::Wide;

/// The numbers of a broadcast ephemeris (IS-GPS-200, tables 20-I and 20-III). Each field holds the
/// floor and the ceiling of its decimal in its unit, within its bound.
#[derive(Clone, Copy, Debug, PartialEq, Eq)]
pub struct Elements {
    /// The clock time, in ps since 1980-01-06 00:00:00 GPS time.
    pub toc: i128,
    /// The start of the week that brings the ephemeris time nearest to the clock time, in ps since
    /// 1980-01-06 00:00:00 GPS time.
    pub week_start: i128,
    /// The ephemeris time in its week, in ps. Its low end is under a week.
    pub toe_week: Wide,
    /// The clock's offset, in 10^-16 s.
    pub af0: Wide,
    /// The clock's drift, in 10^-22 per s.
    pub af1: Wide,
    /// The clock's ageing, in 10^-28 per s^2.
    pub af2: Wide,
    /// The group delay, in 10^-16 s.
    pub tgd: Wide,
    /// The root of the semi-major axis, in 10^-12 m^(1/2).
    pub root_a: Wide,
    /// The eccentricity, in 10^-16.
    pub e: Wide,
    /// The mean anomaly at the ephemeris time, in 10^-16 rad.
    pub m0: Wide,
    /// The correction of the mean motion, in 10^-22 rad/s.
    pub dn: Wide,
    /// The cosine and sine terms of the argument of latitude, in 10^-16 rad.
    pub cuc: Wide,
    pub cus: Wide,
    /// The cosine and sine terms of the radius, in um.
    pub crc: Wide,
    pub crs: Wide,
    /// The cosine and sine terms of the inclination, in 10^-16 rad.
    pub cic: Wide,
    pub cis: Wide,
    /// The inclination at the ephemeris time, in 10^-16 rad.
    pub i0: Wide,
    /// The rate of the inclination, in 10^-22 rad/s.
    pub idot: Wide,
    /// The longitude of the ascending node at the start of the week, in 10^-16 rad.
    pub om0: Wide,
    /// The rate of the right ascension, in 10^-22 rad/s.
    pub om_dot: Wide,
    /// The argument of perigee, in 10^-16 rad.
    pub omega: Wide,
    pub ghost toc_from: { pos 0 ≤ℤ toc },
    pub ghost toc_under: { toc <ℤ pos time_bound },
    pub ghost toc_near: { IsNearTime toc week_start toe_week },
    pub ghost toe_within: { LiesFrom (pos 0) (pos week) toe_week },
    pub ghost toe_under: { toe_week.lo <ℤ pos week },
    pub ghost af0_within: { IsField offset_bound af0 },
    pub ghost af1_within: { IsField drift_bound af1 },
    pub ghost af2_within: { IsField ageing_bound af2 },
    pub ghost tgd_within: { IsField delay_bound tgd },
    pub ghost root_a_within: { LiesFrom (pos least_root_a) (pos greatest_root_a) root_a },
    pub ghost e_within: { LiesFrom (pos 0) (pos eccentricity_bound) e },
    pub ghost m0_within: { IsField angle_bound m0 },
    pub ghost dn_within: { IsField rate_bound dn },
    pub ghost cuc_within: { IsField angle_swing_bound cuc },
    pub ghost cus_within: { IsField angle_swing_bound cus },
    pub ghost crc_within: { IsField radius_swing_bound crc },
    pub ghost crs_within: { IsField radius_swing_bound crs },
    pub ghost cic_within: { IsField angle_swing_bound cic },
    pub ghost cis_within: { IsField angle_swing_bound cis },
    pub ghost i0_within: { IsField angle_bound i0 },
    pub ghost idot_within: { IsField rate_bound idot },
    pub ghost om0_within: { IsField angle_bound om0 },
    pub ghost om_dot_within: { IsField rate_bound om_dot },
    pub ghost omega_within: { IsField angle_bound omega },
}

impl Elements {
    /// The ephemeris time, in ps since 1980-01-06 00:00:00 GPS time.
    pub fn ephemeris_time(&self) -> Wide
        ensures low { result.lo ≡ self.now.week_start +ℤ self.now.toe_week.lo }
        ensures high { result.hi ≡ self.now.week_start +ℤ self.now.toe_week.hi }
    {
        Wide {
            lo: self.week_start + self.toe_week.lo,
            hi: self.week_start + self.toe_week.hi,
        }
    }
}
