//! How many steps a whole run has.

ghost use Rattle.std.specs.Prelude.{◌≤◌, ◌+◌, ◌*◌, List, length};
ghost use Rattle.grid_model.specs.Boxes.{grid_box};
ghost use Rattle.paving.specs.Turns.{ShownEvent, shown_steps, PavedTurns};
ghost use Rattle.sat_model.specs.BoxTests.{BoxTest};
ghost use Rattle.sat_model.specs.declared.rules.Rules.{Rules};

use grid_model::Box3;
use paving::Renewals;

/// A whole run has at most 1801 (2 B + 1) steps, B being how many splits the rules allow: no more
/// than 2 B + 1 boxes are taken up, and none has as many (`box_contraction::work_on` says 1,015). The
/// call does nothing.
pub fn runs_cut_few<M: Renewals>(_root: &Box3, _maker: &M)
    ensures { (test : BoxTest) (rules : Rules) (events : List ShownEvent)
        → PavedTurns (M.maker _maker.now) test rules (grid_box _root.now) events
        → length (shown_steps events) ≤ 1801 * (2 * rules.bisections + 1) }
{}
