//! The tests of steps, and of the line of the splits behind them.

ghost use Rattle.std.specs.Prelude.{◌≡◌};
ghost use Rattle.sat_model.specs.declared.rules.Rules.{Rules};
ghost use Rattle.sat_model.specs.declared.steps.Step.TheVariants.{Cut, Split, Outside, Inside};
ghost use Rattle.sat_model.specs.declared.steps.Step.TheVariants.{Edge};
ghost use Rattle.sat_model.specs.BoxTests.{BoxTest as TestValue};
ghost use Rattle.subpaving.specs.LiveValues.{live_value};
ghost use Rattle.paving_log_check.specs.RowsTests.{rows_test_value};
ghost use Rattle.paving_log_check.specs.Steps.{stage_of, IsStepFault, IsDoneFault};

use crate::claims::{cuts_empty_slab, is_long};
use crate::faults::{
    BAD_SPLIT, CLOCK_NARROW, COUNT_DIFFERS, CUT_NOT_SHOWN, IN_NOT_SHOWN, NOT_CLOSED, NOT_LIVE,
    OUT_NOT_SHOWN, OVER_BUDGET,
};
use crate::rows_test::RowsTest;
use sat_model::{Rules, Step};
use subpaving::Live;

/// The least number of a test of a cut that fails.
fn cut_fault(test: &mut RowsTest<'_>, live: &Live, id: u32, face: u8, bound: i64) -> Option<u8>
    ensures fault { (rules : Rules)
        → IsStepFault rules (stage_of live.now test.old) (Cut id face bound) result }
    ensures same { rows_test_value test.new ≡ rows_test_value test.old }
{
    let Some(part) = live.box_of(id) else {
        return Some(NOT_LIVE);
    };
    if !cuts_empty_slab(test, face, bound, &part) {
        return Some(CUT_NOT_SHOWN);
    }
    None
}

/// The same of a split.
fn split_fault(rules: &Rules, live: &Live, id: u32, axis: u8) -> Option<u8>
    ensures { (test : TestValue)
        → IsStepFault rules.now (record { boxes = live_value live.now; test = test })
        (Split id axis) result }
{
    let Some(part) = live.box_of(id) else {
        return Some(NOT_LIVE);
    };
    if !is_long(rules, axis, &part) {
        return Some(BAD_SPLIT);
    }
    if live.splits() >= rules.bisections as usize {
        return Some(OVER_BUDGET);
    }
    None
}

/// The same of a box that is closed as outside.
fn outside_fault(test: &mut RowsTest<'_>, live: &Live, id: u32) -> Option<u8>
    ensures fault { (rules : Rules)
        → IsStepFault rules (stage_of live.now test.old) (Outside id) result }
    ensures same { rows_test_value test.new ≡ rows_test_value test.old }
{
    let Some(part) = live.box_of(id) else {
        return Some(NOT_LIVE);
    };
    if !test.is_empty(&part) {
        return Some(OUT_NOT_SHOWN);
    }
    None
}

/// The same of one that is closed as inside.
fn inside_fault(
    test: &RowsTest<'_>,
    live: &Live,
    id: u32,
    clock: i64,
    lo: i64,
    hi: i64,
) -> Option<u8>
    ensures { (rules : Rules)
        → IsStepFault rules (stage_of live.now test.now) (Inside id clock lo hi) result }
{
    let Some(part) = live.box_of(id) else {
        return Some(NOT_LIVE);
    };
    if !test.is_inner(&part, clock) {
        return Some(IN_NOT_SHOWN);
    }
    if !test.holds_hull(&part, lo, hi) {
        return Some(CLOCK_NARROW);
    }
    None
}

/// The same of one that is closed as undecided.
fn edge_fault(test: &RowsTest<'_>, live: &Live, id: u32, lo: i64, hi: i64) -> Option<u8>
    ensures { (rules : Rules)
        → IsStepFault rules (stage_of live.now test.now) (Edge id lo hi) result }
{
    let Some(part) = live.box_of(id) else {
        return Some(NOT_LIVE);
    };
    if !test.holds_hull(&part, lo, hi) {
        return Some(CLOCK_NARROW);
    }
    None
}

/// The same of a step of any kind.
pub(crate) fn step_fault(
    test: &mut RowsTest<'_>,
    rules: &Rules,
    live: &Live,
    step: &Step,
) -> Option<u8>
    ensures fault { IsStepFault rules.now (stage_of live.now test.old) step.now result }
    ensures same { rows_test_value test.new ≡ rows_test_value test.old }
{
    match step {
        Step::Cut { id, face, bound } => cut_fault(test, live, *id, *face, *bound),
        Step::Split { id, axis } => split_fault(rules, live, *id, *axis),
        Step::Outside { id } => outside_fault(test, live, *id),
        Step::Inside { id, clock, lo, hi } => inside_fault(test, live, *id, *clock, *lo, *hi),
        Step::Edge { id, lo, hi } => edge_fault(test, live, *id, *lo, *hi),
    }
}

/// The least number of a test of the line of the splits that fails, behind the steps.
pub(crate) fn done_fault(live: &Live, done: u32) -> Option<u8>
    ensures { (test : TestValue)
        → IsDoneFault done (record { boxes = live_value live.now; test = test }) result }
{
    if !live.is_none_live() {
        return Some(NOT_CLOSED);
    }
    if live.splits() != done as usize {
        return Some(COUNT_DIFFERS);
    }
    None
}
