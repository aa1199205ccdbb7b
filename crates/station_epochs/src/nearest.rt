//! The nearer of two epochs.

ghost use Rattle.std.specs.Prelude.{◌≡◌, ◌-ℤ◌, ◌≤ℤ◌, ◌<ℤ◌, true, false, unsigned_abs};
ghost use Rattle.station_epochs.specs.Search.{IsNearer};

use rinex_obs::ObsEpoch;

/// An epoch of the station that is near enough: its place in the file, and how many ps it is from
/// that of the receiver.
#[derive(Clone, Copy)]
pub(crate) struct Near {
    pub(crate) place: usize,
    pub(crate) apart: u128,
}

/// The nearer of two, and the later where they are as near.
pub(crate) fn nearer(early: Option<Near>, late: Option<Near>) -> Option<Near>
    ensures { IsNearer early late result }
{
    match (early, late) {
        (Some(early), Some(late)) => {
            if early.apart < late.apart {
                Some(early)
            } else {
                Some(late)
            }
        }
        (None, late) => late,
        (early, None) => early,
    }
}

/// Whether an epoch is later than another.
pub(crate) fn is_later(epoch: &ObsEpoch, than: &ObsEpoch) -> bool
    ensures later { result ≡ true → than.now.tag <ℤ epoch.now.tag }
    ensures other { result ≡ false → epoch.now.tag ≤ℤ than.now.tag }
{
    than.tag < epoch.tag
}

/// How many ps lie between two epochs.
pub(crate) fn time_between(epoch: &ObsEpoch, other: &ObsEpoch) -> u128
    ensures { result ≡ unsigned_abs (epoch.now.tag -ℤ other.now.tag) }
{
    epoch.tag.abs_diff(other.tag)
}
