//! How large single differences are.

ghost use Rattle.grid_model.specs.Sizes.{IsWithin};
ghost use Rattle.grid_model.specs.declared.boxes.Pos.{Pos};
ghost use Rattle.sat_rows.specs.Chains.{Chain};
ghost use Rattle.error_bounds.specs.Sizes.{IsNearGround};
ghost use Rattle.station_rows.specs.Differences.{CommonView, IsDifferenceOf};
ghost use Rattle.station_rows.specs.Nearby.{AreNearby, ArePlausibleCodes};
ghost use Rattle.station_rows.specs.Nearby.{difference_reach};

/// For a satellite in a medium orbit, a record whose clock time is near, pseudoranges at most 5,000
/// km apart and a station on the ground, a corrected pseudorange less the station's residual is
/// within 55,600 km. The call does nothing.
pub fn differences_are_small()
    ensures { (view : CommonView) (p : Pos) (c : Chain) → ArePlausibleCodes view → AreNearby view
        → IsNearGround view.place → IsDifferenceOf view p c → IsWithin difference_reach c.corrected }
{}
