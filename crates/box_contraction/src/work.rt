//! All steps of one box.

ghost use Rattle.std.specs.Prelude.{◌≡◌, ◌+◌, ◌≤◌, [], length, map, true, false, MatchOption};
ghost use Rattle.grid_model.specs.Boxes.{grid_box};
ghost use Rattle.sat_model.specs.BoxTests.{IsHull};
ghost use Rattle.sat_model.specs.RowTrees.{row_tree};
ghost use Rattle.range_contractor.specs.Views.{tree_value};
ghost use Rattle.relaxed_meet.specs.BoxStates.{IsBoxState};
ghost use Rattle.relaxed_meet.specs.TestValues.{test_value};
ghost use Rattle.box_contraction.specs.Adding.{AddsCuts, step_value};
ghost use Rattle.box_contraction.specs.BoxSteps.{AreBoxSteps, IsCut, IsCutDown};

use crate::box_step::{BoxStep, BoxSteps};
use crate::closing::closing_step;
use crate::proposal::{cut_by_pairs, cut_by_tree};
use crate::rounds::cut_rounds;
use box_pool::Item;
use fix_interval::Interval;
use grid_model::{Box3, Span};
use range_contractor::Tree;
use relaxed_meet::{BoxState, BoxTest};
use sat_model::Rules;

/// Works on a box of a paving that is taken up after so many splits, and puts its steps into the
/// empty list, each with the slab that it cuts off or the box as it is then. The box is cut where
/// the test shows slabs at its faces empty, and then it is split or closed. The tree is that of the
/// rows: slabs are cut off up to what it proposes, and by eighths. Where the rules ask pairs of rows
/// there is none, and slabs are cut off up to what the deepest conflicts of pairs propose. At most
/// 1,014 cuts are made. What the test remembers affects speed only.
pub fn work_on<I: Interval>(
    test: &mut BoxTest,
    rules: &Rules,
    tree: Option<&Tree<I>>,
    splits: u32,
    next: &Item,
    steps: &mut BoxSteps,
)
    requires tree { MatchOption tree ((test_value test.old).pairs ≡ true)
        (λ t. ((test_value test.old).pairs ≡ false) × (tree_value I.low I.high t.now
        ≡ row_tree I.GRAIN (test_value test.old).rows (test_value test.old).q)) }
    requires empty { steps.old.items ≡ [] }
    ensures steps { AreBoxSteps I.GRAIN I.SLACK (test_value test.old) rules.now splits
        (record { id = next.now.id; part = grid_box next.now.part })
        (map step_value steps.new.items) }
    ensures few { length steps.new.items ≤ 1015 }
    ensures same { test_value test.new ≡ test_value test.old }
{
    let id = next.id;
    let part = &next.part;
    let state = test.state(part);
    let BoxState::Undecided { hull } = state else {
        let step = closing_step(rules, splits, id, part, &state);
        steps.push(BoxStep { step, part: *part });
        return;
    };
    let mut left = *part;
    cut_box(test, tree, hull, id, &mut left, steps);
    let state = state_of_rest(test, part, &state, &left);
    let step = closing_step(rules, splits, id, &left, &state);
    steps.push(BoxStep { step, part: left });
}

/// Cuts a box that is shown neither empty nor inner, with its clock hull.
fn cut_box<I: Interval>(
    test: &mut BoxTest,
    tree: Option<&Tree<I>>,
    hull: Span,
    id: u32,
    part: &mut Box3,
    steps: &mut BoxSteps,
)
    requires tree { MatchOption tree ((test_value test.old).pairs ≡ true)
        (λ t. ((test_value test.old).pairs ≡ false) × (tree_value I.low I.high t.now
        ≡ row_tree I.GRAIN (test_value test.old).rows (test_value test.old).q)) }
    requires hull { IsHull (test_value test.old) (grid_box part.old) hull.lo hull.hi }
    requires room { length steps.old.items + 1020 ≤ 1024 }
    ensures cut { AddsCuts (IsCut I.GRAIN I.SLACK (test_value test.old) id (grid_box part.old))
        (map step_value steps.old.items) (grid_box part.new) (map step_value steps.new.items) }
    ensures few { length steps.new.items ≤ length steps.old.items + 1014 }
    ensures same { test_value test.new ≡ test_value test.old }
{
    match tree {
        Some(tree) => cut_down(test, tree, hull, id, part, steps),
        None => cut_by_pairs(test, id, part, steps),
    }
}

/// The same by what the tree of the rows proposes, and then by eighths.
fn cut_down<I: Interval>(
    test: &mut BoxTest,
    tree: &Tree<I>,
    hull: Span,
    id: u32,
    part: &mut Box3,
    steps: &mut BoxSteps,
)
    requires tree { tree_value I.low I.high tree.now
        ≡ row_tree I.GRAIN (test_value test.old).rows (test_value test.old).q }
    requires hull { IsHull (test_value test.old) (grid_box part.old) hull.lo hull.hi }
    requires room { length steps.old.items + 1020 ≤ 1024 }
    ensures cut { AddsCuts (IsCutDown I.GRAIN I.SLACK (test_value test.old) id
        (grid_box part.old))
        (map step_value steps.old.items) (grid_box part.new) (map step_value steps.new.items) }
    ensures few { length steps.new.items ≤ length steps.old.items + 1014 }
    ensures same { test_value test.new ≡ test_value test.old }
{
    cut_by_tree(test, tree, hull, id, part, steps);
    cut_rounds(test, id, part, steps);
}

/// What the test shows of what cuts left of a box, of which it showed `state` before. Where nothing
/// was cut off it is the same.
fn state_of_rest(test: &mut BoxTest, part: &Box3, state: &BoxState, left: &Box3) -> BoxState
    requires before { IsBoxState (test_value test.old) (grid_box part.now) state.now }
    ensures state { IsBoxState (test_value test.old) (grid_box left.now) result }
    ensures same { test_value test.new ≡ test_value test.old }
{
    if *left == *part {
        *state
    } else {
        test.state(left)
    }
}
