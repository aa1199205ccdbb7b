//! Cutting a box to what a tree of contractors or pairs of rows propose.

ghost use Rattle.std.specs.Prelude.{◌≡◌, ◌+◌, ◌<◌, ◌≤◌, length, map};
ghost use Rattle.grid_model.specs.Boxes.{grid_box, span_side};
ghost use Rattle.sat_model.specs.Trees.{IsWellFormed};
ghost use Rattle.range_contractor.specs.Views.{tree_value};
ghost use Rattle.relaxed_meet.specs.TestValues.{test_value};
ghost use Rattle.box_contraction.specs.Adding.{AddsCuts, step_value};
ghost use Rattle.box_contraction.specs.BoxSteps.{AreCutsByTree};
ghost use Rattle.box_contraction.specs.Cuts.{AreSomeCuts};

use crate::box_step::BoxSteps;
use crate::faces::cut_faces;
use crate::target::Target;
use fix_interval::Interval;
use grid_model::{Box3, Span};
use range_contractor::{Tree, contract};
use relaxed_meet::BoxTest;

/// Cuts the box at each face in turn where the tree's proposal for it and the clock span lies
/// inside.
pub fn cut_by_tree<I: Interval>(
    test: &mut BoxTest,
    tree: &Tree<I>,
    clock: Span,
    id: u32,
    part: &mut Box3,
    steps: &mut BoxSteps,
)
    requires tree { IsWellFormed (tree_value I.low I.high tree.now) }
    requires room { length steps.old.items + 6 ≤ 1024 }
    ensures cut { AddsCuts (AreCutsByTree I.GRAIN I.SLACK (tree_value I.low I.high tree.now)
        (span_side clock) (test_value test.old) id (grid_box part.old))
        (map step_value steps.old.items) (grid_box part.new) (map step_value steps.new.items) }
    ensures few { length steps.new.items ≤ length steps.old.items + 6 }
    ensures same { test_value test.new ≡ test_value test.old }
{
    match contract(tree, part, clock) {
        Some(proposed) => cut_faces(test, &Target::Proposal(proposed), id, part, steps),
        None => {}
    }
}

/// How often pairs are asked for a proposal of one box, at most.
const ROUNDS: u8 = 8;

/// Where pairs of rows propose the faces of a box in this round. In the first one the test of the
/// box has formed the rows around it already.
fn proposed_in(test: &mut BoxTest, round: u8, part: &Box3) -> Box3
    ensures same { test_value test.new ≡ test_value test.old }
{
    if round > 0 {
        test.form_rows(part);
    }
    test.proposal(part)
}

/// Whether a box is shorter than another by more than a quarter of one of its sides.
fn is_much_shorter(part: &Box3, before: &Box3) -> bool {
    let was = before.length_on(0);
    if part.length_on(0) < was - was / 4 {
        return true;
    }
    let was = before.length_on(1);
    if part.length_on(1) < was - was / 4 {
        return true;
    }
    let was = before.length_on(2);
    part.length_on(2) < was - was / 4
}

/// Cuts the box at each face in turn to where the deepest conflicts of pairs of rows propose it,
/// once more as long as that makes it much shorter. The proposal is a guess: each slab is tested, so
/// that nothing has to be known of it.
pub fn cut_by_pairs(test: &mut BoxTest, id: u32, part: &mut Box3, steps: &mut BoxSteps)
    requires room { length steps.old.items + 48 ≤ 1024 }
    ensures cut { AddsCuts (AreSomeCuts (test_value test.old) id (grid_box part.old))
        (map step_value steps.old.items) (grid_box part.new) (map step_value steps.new.items) }
    ensures few { length steps.new.items ≤ length steps.old.items + 48 }
    ensures same { test_value test.new ≡ test_value test.old }
{
    for round in 0..ROUNDS {
        let before = *part;
        let proposed = proposed_in(test, round, part);
        cut_faces(test, &Target::Proposal(proposed), id, part, steps);
        if !is_much_shorter(part, &before) {
            return;
        }
    }
}
