//! What may be asked of a block that passes.

ghost use Rattle.std.specs.Prelude.{ℕ, Option};
ghost use Rattle.sat_model.specs.Verdicts.{BlockPasses};
ghost use Rattle.paving_log.specs.CoverBoxes.{BodyFolds};
ghost use Rattle.paving_log.specs.Values.{block_of};

use paving_log::LogEpoch;
use sat_model::Rules;

/// The law: each step of a block that passes can be taken, so that `cover_boxes` may be called for
/// the block. The call does nothing.
pub fn judged_folds(epoch: &LogEpoch, rules: &Rules)
    ensures { (before : Option ℕ) → BlockPasses rules.now before (block_of epoch.now)
        → BodyFolds (block_of epoch.now).body }
{}
