//! Weeks.

ghost use Rattle.std.specs.Prelude.{pos, ◌≤ℤ◌, ◌<ℤ◌};
ghost use Rattle.gnss_model.specs.RecordBounds.{week, time_bound};
ghost use Rattle.rinex_nav.specs.Weeks.{IsNearestWeek};

use gnss_model::WEEK;

/// Half a week, in ps.
const HALF_WEEK: i128 = WEEK / 2;

/// The start of the week that brings the time in it nearest to the clock time, at a tie of the
/// later week. It may be negative.
pub fn nearest_week(toc: i128, toe: i128) -> i128
    requires toc_from { pos 0 ≤ℤ toc }
    requires toc_under { toc <ℤ pos time_bound }
    requires toe_from { pos 0 ≤ℤ toe }
    requires toe_to { toe ≤ℤ pos week }
    ensures { IsNearestWeek toc toe result }
{
    (toc - toe + HALF_WEEK).div_euclid(WEEK) * WEEK
}
