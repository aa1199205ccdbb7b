//! The tests of the bounds of a block, behind its splits.

ghost use Rattle.std.specs.Prelude.{◌≡◌, ℕ, ◌+◌, ◌<◌, ◌≤◌, ◌^◌, length, map, Some, IfOk};
ghost use Rattle.std.specs.Prelude.{MatchOption};
ghost use Rattle.grid_model.specs.Boxes.{grid_box};
ghost use Rattle.row_pairs.specs.FormValues.{form_value};
ghost use Rattle.sat_model.specs.Bounds.{lines_of_bounds};
ghost use Rattle.sat_model.specs.BoxTests.{test_of};
ghost use Rattle.sat_model.specs.Events.{RowsOver, rows_over};
ghost use Rattle.sat_model.specs.Renewals.{AnyLine};
ghost use Rattle.sat_model.specs.ShownBounds.{rows_behind, AreOver, AreShownOver, AreBoundsShown};
ghost use Rattle.sat_model.specs.ShownBounds.{IsFirstUnshownOver, IsFirstUnshown};
ghost use Rattle.sat_model.specs.Stages.{first_stage};
ghost use Rattle.sat_model.specs.Verdicts.{EventsPass};
ghost use Rattle.paving_log.specs.Values.{bound_value, body_value};
ghost use Rattle.paving_log_check.specs.Answers.{ShowsNoSpans};
ghost use Rattle.paving_log_check.specs.FormBounds.{AreFormsOver};

use crate::faults::{BOUND_NOT_SHOWN, plain_fault};
use crate::verdict::Fault;
use arrayvec::ArrayVec;
use grid_model::{Box3, NoMemory};
use paving_log::{Body, Bound, kept_hull};
use row_pairs::{Form, forms_of};
use row_sums::forms_show;
use sat_model::{Row, Rules};
use std::alloc::Global;
use subpaving::{box_under, lies_in};

/// The rows in use at the end, and the box over which they hold.
fn last_rows<'a>(root: &'a Box3, firsts: &'a [Row], body: &'a Body) -> (&'a Box3, &'a [Row])
    ensures { rows_over (grid_box result.0.now) result.1.now
        ≡ rows_behind (rows_over (grid_box root.now) firsts.now) (body_value body.now).events }
{
    match body.renewals.last() {
        Some(renewal) => (&renewal.part, &renewal.rows),
        None => (root, firsts),
    }
}

/// The rows by which bounds are shown over a hull.
fn rows_for<'a>(root: &'a Box3, firsts: &'a [Row], body: &'a Body, hull: &Box3) -> &'a [Row]
    ensures { (over : RowsOver) × AreOver (grid_box hull.now)
        (rows_over (grid_box root.now) firsts.now) (body_value body.now).events over
        × (over.rows ≡ result.now) }
{
    let (part, rows) = last_rows(root, firsts, body);
    if lies_in(hull, part) { rows } else { firsts }
}

/// Their forms over the hull.
fn forms_for(root: &Box3, firsts: &[Row], body: &Body, hull: &Box3) -> ArrayVec<Form, 64>
    requires firsts { length firsts.now ≤ 64 }
    requires lasts { length (rows_behind (rows_over (grid_box root.now) firsts.now)
        (body_value body.now).events).rows ≤ 64 }
    ensures { AreFormsOver (rows_over (grid_box root.now) firsts.now) (body_value body.now).events
        (grid_box hull.now) (map form_value result.items) }
{
    forms_of(rows_for(root, firsts, body, hull), hull)
}

/// The first of these bounds of a body that isn't shown, where the first of them is to be shown over
/// the hull, and `line` is the number of its line.
fn first_unshown(
    line: u32,
    root: &Box3,
    firsts: &[Row],
    q: u8,
    body: &Body,
    mut hull: Box3,
) -> Option<Fault>
    requires numbered { line + lines_of_bounds (body_value body.now).bounds < 2 ^ 32 }
    requires firsts { length firsts.now ≤ 64 }
    requires lasts { length (rows_behind (rows_over (grid_box root.now) firsts.now)
        (body_value body.now).events).rows ≤ 64 }
    ensures { MatchOption result
        (AreShownOver q (rows_over (grid_box root.now) firsts.now) (body_value body.now).events
        (Some (grid_box hull)) (body_value body.now).bounds)
        (λ fault. (k : ℕ) × IsFirstUnshownOver q (rows_over (grid_box root.now) firsts.now)
        (body_value body.now).events (Some (grid_box hull)) (body_value body.now).bounds k
        × (fault.number ≡ 66) × ShowsNoSpans fault × (fault.line ≡ line + k)) }
{
    let mut next = line;
    let mut forms = forms_for(root, firsts, body, &hull);
    for bound in &body.bounds {
        if !forms_show(&forms, &hull, q, &bound.half, &bound.sums) {
            return Some(plain_fault(next, BOUND_NOT_SHOWN));
        }
        next += 1 + bound.sums.len() as u32;
        let left = box_under(&bound.half, &hull);
        if left != hull {
            hull = left;
            forms = forms_for(root, firsts, body, &hull);
        }
    }
    None
}

/// The first of the bounds that isn't shown, behind steps and renewals that pass by the root and the
/// first rows, where `line` is the number of the first line of the bounds.
pub(crate) fn bounds_fault(
    alloc: Global,
    line: u32,
    root: &Box3,
    firsts: &[Row],
    rules: &Rules,
    body: &Body,
) -> Result<Option<Fault>, NoMemory>
    requires numbered { line + lines_of_bounds (body_value body.now).bounds < 2 ^ 32 }
    requires rows { length firsts.now ≤ 64 }
    requires passes { EventsPass AnyLine (rows_over (grid_box root.now) firsts.now) rules.now
        body.now.done 0 (first_stage (test_of rules.now firsts.now) (grid_box root.now))
        (body_value body.now).events }
    ensures { IfOk result (λ found. MatchOption found
        (AreBoundsShown rules.now.outliers (rows_over (grid_box root.now) firsts.now)
        (body_value body.now).events (body_value body.now).bounds)
        (λ fault. (k : ℕ) × IsFirstUnshown rules.now.outliers
        (rows_over (grid_box root.now) firsts.now) (body_value body.now).events
        (body_value body.now).bounds k × (fault.number ≡ 66) × ShowsNoSpans fault
        × (fault.line ≡ line + k))) }
{
    if body.bounds.is_empty() {
        return Ok(None);
    }
    let Some(hull) = kept_hull(alloc, root, &body.steps)? else {
        return Ok(Some(plain_fault(line, BOUND_NOT_SHOWN)));
    };
    let found = first_unshown(line, root, firsts, rules.outliers, body, hull);
    Ok(found)
}
