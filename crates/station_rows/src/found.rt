//! A satellite of the receiver among those of an epoch of the station.

ghost use Rattle.std.specs.Prelude.{◌≡◌, None, Some, MatchOption};
ghost use Rattle.station_rows.specs.Stations.{observed_in};

use rinex_obs::{ObsEpoch, SatObs};

/// What was observed of the same satellite in another epoch: the first of its name.
pub(crate) fn observed_in<'a>(epoch: &'a ObsEpoch, seen: &SatObs) -> Option<&'a SatObs>
    ensures { MatchOption result
        (observed_in seen.now.sat epoch.now.sats.items ≡ None)
        (λ theirs. observed_in seen.now.sat epoch.now.sats.items ≡ Some theirs.now) }
{
    'sats: for theirs in &epoch.sats {
        if theirs.sat == seen.sat {
            return Some(theirs);
        }
    }
    None
}
