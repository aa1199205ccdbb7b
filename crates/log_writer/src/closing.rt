//! What stands behind the steps of an epoch: rows that are renewed once more, the number of splits, and
//! the bounds.

ghost use Rattle.std.specs.Prelude.{◌≡◌, ◌≤◌, ◌∷◌, [], List, length, map, true, Some};
ghost use Rattle.std.specs.List.{AllByRecursion};
ghost use Rattle.grid_model.specs.Boxes.{GridBox, grid_box, IsInside};
ghost use Rattle.sat_model.specs.Events.{Event, RowsOver, rows_over};
ghost use Rattle.log_lines.specs.declared.line.LogLine.TheVariants as line;
ghost use Rattle.log_lines.specs.Rows.{RowFits};
ghost use Rattle.epoch_report.specs.ReportLines.{total_text_of};
ghost use Rattle.subpaving.specs.LiveValues.{box_option};
ghost use Rattle.sat_model.specs.declared.rows.Row.{Row};
ghost use Rattle.log_writer.specs.InUse.{rows_value, rows_option, used_last};
ghost use Rattle.log_writer.specs.Pieces.{with_report};
ghost use Rattle.log_writer.specs.Writing.{Written, Trusts};
ghost use Rattle.log_writer.specs.Wrote.{IsBehind, last_pieces, WroteClosing};

use crate::bounds::put_bounds;
use crate::fault::WriteFault;
use crate::in_use::NewRows;
use crate::last_renewal::last_renewal;
use crate::outcome::Outcome;
use crate::pen::Pen;
use crate::steps::put_renewal;
use crate::wanted::Wanted;
use epoch_report::{Counts4, total_text};
use grid_model::Box3;
use log_lines::done_line;
use paving::Renewals;
use sat_model::Row;

/// The first rows of an epoch, its root, and what its log is made by.
#[derive(Clone, Copy)]
pub(crate) struct Search<'a> {
    pub rows: &'a [Row],
    pub root: &'a Box3,
    pub wanted: &'a Wanted,
}

/// Writes the number of splits with the total.
fn put_done<P: Pen>(pen: &mut P, counts: &Counts4) -> Result<(), WriteFault>
    ensures written { Written (P.seen pen.old) (with_report (line.Done counts.now.bisections)
        (total_text_of counts.now) ∷ []) result (P.seen pen.new) }
    ensures trust { Trusts (P.trust pen.old) result (P.trust pen.new) }
{
    let last = done_line(counts.bisections);
    let total = total_text(counts);
    pen.put(last.as_bytes(), total.as_bytes())
}

/// Writes the rows that are renewed once more, where there are any.
fn put_last<P: Pen>(pen: &mut P, last: &Option<NewRows>) -> Result<(), WriteFault>
    requires fit { (new : RowsOver) → rows_option last.now ≡ Some new
        → AllByRecursion RowFits new.rows }
    ensures written { Written (P.seen pen.old) (last_pieces (rows_option last.now)) result
        (P.seen pen.new) }
    ensures trust { Trusts (P.trust pen.old) result (P.trust pen.new) }
{
    match last {
        Some(new) => put_renewal(pen, &new.part, new.as_slice()),
        None => Ok(()),
    }
}

/// The rows in use at the end: those that were renewed last, or else before, or the first ones.
fn rows_at_end(search: &Search<'_>, before: &Option<NewRows>, last: &Option<NewRows>) -> NewRows
    requires { length search.now.rows.now ≤ 64 }
    ensures { rows_value result
        ≡ used_last (used_last (rows_over (grid_box search.now.root.now) search.now.rows.now)
        (rows_option before.now)) (rows_option last.now) }
{
    if let Some(new) = last {
        return *new;
    }
    match before {
        Some(used) => *used,
        None => NewRows::copied(search.root, search.rows),
    }
}

/// The box over which the rows hold that are in use behind the steps.
fn part_in_use(root: &Box3, renewed: &Option<NewRows>) -> Box3
    ensures { (rows : List Row) → grid_box result
        ≡ (used_last (rows_over (grid_box root.now) rows) (rows_option renewed.now)).part }
{
    match renewed {
        Some(used) => used.part,
        None => *root,
    }
}

/// Writes what stands behind the steps. Where bounds are asked for, the rows are renewed once more over
/// the hull of the kept boxes, where that is due, and behind the number of splits come the bounds.
pub(crate) fn put_closing<P: Pen, M: Renewals>(
    pen: &mut P,
    search: &Search<'_>,
    done: &Outcome,
    maker: &M,
) -> Result<(), WriteFault>
    requires few { length search.now.rows.now ≤ 64 }
    requires fit { AllByRecursion RowFits search.now.rows.now }
    requires root { (M.maker maker.now).active ≡ true
        → M.root maker.now ≡ grid_box search.now.root.now }
    requires sats { (M.maker maker.now).active ≡ true
        → M.sats maker.now ≡ map (λ row. row.sat) search.now.rows.now }
    requires inside { (hull : GridBox) → box_option done.now.kept ≡ Some hull
        → IsInside hull (grid_box search.now.root.now) }
    ensures written { (events : List Event)
        → IsBehind (rows_over (grid_box search.now.root.now) search.now.rows.now) events done.now
        → WroteClosing search.now.wanted.now (M.maker maker.now)
        (rows_over (grid_box search.now.root.now) search.now.rows.now) events done.now.counts
        (P.seen pen.old) result (P.seen pen.new) }
    ensures trust { Trusts (P.trust pen.old) result (P.trust pen.new) }
{
    let Some(directions) = &search.wanted.directions else {
        return put_done(pen, &done.counts);
    };
    let list = directions.over(search.root);
    let along = list.as_slice();
    let used = part_in_use(search.root, &done.renewed);
    let last = last_renewal(maker, &used, done.kept, search.rows.len());
    put_last(pen, &last)?;
    put_done(pen, &done.counts)?;
    let Some(hull) = done.kept else {
        return Ok(());
    };
    let at_end = rows_at_end(search, &done.renewed, &last);
    let outliers = search.wanted.rules.outliers;
    put_bounds(pen, search.rows, &at_end, &hull, outliers, along)
}
