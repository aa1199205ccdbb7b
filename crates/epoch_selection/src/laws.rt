//! What is taken of a file whose epochs weren't all kept.

ghost use Rattle.std.specs.Prelude.{◌≡◌};
ghost use Rattle.epoch_selection.specs.Selections.{selected};
ghost use Rattle.epoch_selection.specs.declared.selection.Selection.{Selection};
ghost use Rattle.rinex_obs.specs.Files.{between};
ghost use Rattle.rinex_obs.specs.Reading.{observations_of, plain_epochs};
ghost use Rattle.rinex_obs.specs.declared.obs.Obs.{Obs};

/// The law: where of a file's observations the epochs from the one number to the other were kept,
/// the selection from the one to the other takes those that it takes of the whole file, and all
/// that were kept. The call does nothing.
pub fn kept_are_selected()
    ensures same { (s : Selection) (all kept : Obs)
        → observations_of kept ≡ between s.from s.to (observations_of all)
        → plain_epochs (selected s kept.epochs.items) ≡ plain_epochs (selected s all.epochs.items) }
    ensures all { (s : Selection) (all kept : Obs)
        → observations_of kept ≡ between s.from s.to (observations_of all)
        → plain_epochs (selected s kept.epochs.items) ≡ plain_epochs kept.epochs.items }
{}
