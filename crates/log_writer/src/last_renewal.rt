//! The renewal behind the last step of an epoch whose bounds are asked for.

ghost use Rattle.std.specs.Prelude.{◌≡◌, ◌↔◌, ◌<◌, ◌≤◌, length, true, Some, IsTrue};
ghost use Rattle.grid_model.specs.Boxes.{GridBox, grid_box, IsInside};
ghost use Rattle.paving.specs.Renewing.{GivesFrom};
ghost use Rattle.subpaving.specs.LiveValues.{box_option};
ghost use Rattle.log_writer.specs.InUse.{rows_value, rows_option};
ghost use Rattle.log_writer.specs.LastRenewals.{IsShorter, RenewsOver};

use crate::in_use::{NewRows, no_row};
use grid_model::Box3;
use paving::Renewals;
use sat_model::Row;

/// Whether the hull is shorter than the box of the rows in use.
fn is_shorter(used: &Box3, hull: &Box3) -> bool
    ensures { IsTrue result ↔ IsShorter (grid_box used.now) (grid_box hull.now) }
{
    let (_, long) = used.longest_axis();
    let (_, left) = hull.longest_axis();
    left < long
}

/// The row of a satellite that there is.
fn row_in_place<M: Renewals>(maker: &M, i: u32, part: &Box3) -> Row
    requires number { i < length (M.sats maker.now) }
    requires inside { IsInside (grid_box part.now) (M.root maker.now) }
    ensures { (M.maker maker.now).gives i (grid_box part.now) result }
{
    match maker.row(i, part) {
        Some(row) => row,
        None => unreachable!(),
    }
}

/// Rows of so many satellites anew for a box.
fn rows_anew<M: Renewals>(maker: &M, count: usize, part: &Box3) -> NewRows
    requires sats { length (M.sats maker.now) ≡ count }
    requires few { count ≤ 64 }
    requires inside { IsInside (grid_box part.now) (M.root maker.now) }
    ensures part { result.part ≡ part.now }
    ensures count { result.count ≡ count }
    ensures rows { length result.rows ≡ 64 }
    ensures gives { GivesFrom (M.maker maker.now) 0 (grid_box part.now)
        (rows_value result).rows }
{
    let mut rows = [no_row(); 64];
    for i in 0..count {
        rows[i] = row_in_place(maker, i as u32, part);
    }
    NewRows {
        part: *part,
        rows,
        count,
    }
}

/// So many rows anew for the hull of the kept boxes, where there is one, the maker is active and the
/// hull is shorter than the box of the rows in use.
pub(crate) fn last_renewal<M: Renewals>(
    maker: &M,
    used: &Box3,
    hull: Option<Box3>,
    count: usize,
) -> Option<NewRows>
    requires sats { (M.maker maker.now).active ≡ true → length (M.sats maker.now) ≡ count }
    requires few { count ≤ 64 }
    requires inside { (M.maker maker.now).active ≡ true → (part : GridBox)
        → box_option hull ≡ Some part → IsInside part (M.root maker.now) }
    ensures { RenewsOver (M.maker maker.now) (grid_box used.now) (box_option hull) count
        (rows_option result) }
{
    if !maker.active() {
        return None;
    }
    match hull {
        Some(part) => {
            if is_shorter(used, &part) {
                Some(rows_anew(maker, count, &part))
            } else {
                None
            }
        }
        None => None,
    }
}
