//! Who walks over the epochs of a file.

ghost use Rattle.std.specs.Prelude.{◌≡◌, ℤ, List, ◌∷◌, Option, None, Some, MatchOption, IfSome};
ghost use Rattle.std.specs.Prelude.{option_map};
ghost use Rattle.epoch_selection.specs.Searches.{Search};
ghost use Rattle.epoch_selection.specs.Walks.{MakesNone, IsFirst};
ghost use Rattle.grid_model.specs.Boxes.{GridBox, grid_box};
ghost use Rattle.grid_model.specs.SearchBoxes.{IsSearchBox};
ghost use Rattle.rinex_obs.specs.declared.obs.ObsEpoch.{ObsEpoch};
ghost use Rattle.sat_model.specs.Contractors.{LiesIn};
ghost use Rattle.sat_model.specs.Logs.{Block};

use grid_model::Box3;
use rinex_obs::ObsEpoch;

/// Takes the epochs of a file one by one, each with the box in which it is searched. It is told
/// what an epoch kept, and may search the next one where the receiver can have come from there.
pub trait Walk<'a>: Copy {
    /// The epochs that are left, in order, whether it searches them or not.
    ghost epochs: { Self → List ObsEpoch };

    /// The searches that it makes where these blocks are written of them.
    ghost searches: { Self → List Block → List Search };

    /// Those that it makes behind an epoch of this time that kept this.
    ghost behind: { Self → ℤ → Option GridBox → List Block → List Search };

    /// What an epoch that was searched in this root keeps by its block, as far as the walk asks.
    ghost keeps: { GridBox → Block → Option GridBox };

    /// The box may be a root of its searches.
    ghost may_search: { Self → GridBox → Type 0 };

    /// An epoch of it may keep this.
    ghost may_keep: { Self → Option GridBox → Type 0 };

    /// What it was told of the epoch before is what that may keep.
    ghost ready: { Self → Type 0 };

    /// Takes the next epoch, with its root, of which it may keep any part, all or nothing. Where it
    /// answers none, no search is left.
    fn next(&mut self) -> Option<(&'a ObsEpoch, Box3)>
        ensures first { MatchOption result (ready self.old → MakesNone (searches self.old))
            (λ found. ready self.old → IsFirst (searches self.old) keeps (behind self.new)
            found.0.now (grid_box found.1)) }
        ensures epochs { IfSome result (λ found.
            epochs self.old ≡ found.0.now ∷ epochs self.new) }
        ensures root { IfSome result (λ found. may_search self.new (grid_box found.1)) }
        ensures all { IfSome result (λ found. may_keep self.new (Some (grid_box found.1))) }
        ensures part { IfSome result (λ found. (part : GridBox) → LiesIn part (grid_box found.1)
            → may_keep self.new (Some part)) }
        ensures nothing { IfSome result (λ found. may_keep self.new None) }
        ensures sized { IfSome result (λ found. IsSearchBox (grid_box found.1)) };

    /// Goes on from what this epoch kept.
    fn go_on(&mut self, epoch: &ObsEpoch, kept: Option<Box3>)
        ensures searches { (blocks : List Block) → searches self.new blocks
            ≡ behind self.old epoch.now.tag (option_map grid_box kept) blocks }
        ensures ready { may_keep self.old (option_map grid_box kept) → ready self.new }
        ensures epochs { epochs self.new ≡ epochs self.old };
}
