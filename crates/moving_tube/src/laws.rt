//! Laws of what a log leaves.

ghost use Rattle.std.specs.Prelude.{◌≡◌, ℤ, Some};
ghost use Rattle.moving_tube.specs.Endings.{ending_of, last_paved};
ghost use Rattle.moving_tube.specs.Tracks.{ComesFrom, Left};
ghost use Rattle.sat_model.specs.Cover.{SomeKeeps};
ghost use Rattle.sat_model.specs.Events.{steps_in};
ghost use Rattle.sat_model.specs.Fold.{pieces};
ghost use Rattle.sat_model.specs.Logs.{Block, Body, LogValue};

/// The law: a receiver that a box of the last paved epoch of a log keeps, at its clock offset, comes
/// from what the log leaves. The call does nothing.
pub fn kept_is_left()
    ensures { (log : LogValue) (block : Block) (body : Body) (left : Left) (offset : ℤ)
        → last_paved log.blocks ≡ Some block → block.body ≡ Some body → left.tag ≡ block.ps
        → SomeKeeps left.at offset (pieces body.root (steps_in body.events))
        → ComesFrom (ending_of log.blocks) (Some left) }
{}
