//! A choice of epochs by their numbers.

use rinex_obs::{FIRST_EPOCH, LAST_EPOCH, ObsEpoch};

/// The epochs whose number is at least `from` and at most `to`.
#[derive(Clone, Copy, Debug, PartialEq, Eq)]
pub struct Selection {
    pub from: u32,
    pub to: u32,
}

impl Selection {
    ghost use Rattle.std.specs.Prelude.{◌≡◌, ◌<◌, [], length, IfSome, MatchOption};
    ghost use Rattle.epoch_selection.specs.Selections.{all_epochs, is_selected, selected, IsFirstSelected};

    /// All epochs.
    pub fn all() -> Selection
        ensures { result ≡ all_epochs }
    {
        Selection {
            from: FIRST_EPOCH,
            to: LAST_EPOCH,
        }
    }

    /// Whether it takes this epoch.
    pub fn takes(&self, epoch: &ObsEpoch) -> bool
        ensures { result ≡ is_selected self.now epoch.now }
    {
        self.from <= epoch.index && epoch.index <= self.to
    }

    /// The place of the first of these epochs that it takes.
    pub(crate) fn first_of(&self, epochs: &[ObsEpoch]) -> Option<usize>
        ensures place { MatchOption result (selected self.now epochs.now ≡ [])
            (λ i. IsFirstSelected self.now epochs.now i) }
        ensures within { IfSome result (λ i. i < length epochs.now) }
    {
        for i in 0..epochs.len() {
            if self.takes(&epochs[i]) {
                return Some(i);
            }
        }
        None
    }
}
