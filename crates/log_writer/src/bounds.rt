//! The bounds of an epoch, as lines of the log.

ghost use Rattle.std.specs.Prelude.{◌≡◌, ◌≤◌, ◌∷◌, [], List, length, map};
ghost use Rattle.std.specs.List.{flat_map};
ghost use Rattle.grid_model.specs.Boxes.{grid_box};
ghost use Rattle.row_pairs.specs.FormValues.{form_value};
ghost use Rattle.log_lines.specs.declared.line.LogLine.TheVariants as line;
ghost use Rattle.log_lines.specs.Text.{bound_lines};
ghost use Rattle.log_writer.specs.Bounding.{AreAxes};
ghost use Rattle.log_writer.specs.Found.{bound_value, AreFormsOver, WroteFound, WroteBounds};
ghost use Rattle.log_writer.specs.InUse.{rows_value};
ghost use Rattle.log_writer.specs.Pieces.{alone};
ghost use Rattle.log_writer.specs.Writing.{Written, Trusts};

use crate::fault::WriteFault;
use crate::in_use::NewRows;
use crate::left::Left;
use crate::pen::Pen;
use bound_directions::Direction;
use bound_lines::{BoundHead, bound_line, sum_line};
use bound_search::{Bound, bound_from_forms};
use grid_model::Box3;
use sat_model::{Row, RowSum};

/// The longest side of a hull, in um, up to which no bounds are sought along the axes: 500 m. A form
/// leaves out what grows with the square of its box, some mm at this length.
const LONG: u64 = 500_000_000;

/// Writes the lines of sums.
fn put_sums<P: Pen>(pen: &mut P, sums: &[RowSum]) -> Result<(), WriteFault>
    ensures written { Written (P.seen pen.old) (map alone (map line.By sums.now)) result
        (P.seen pen.new) }
    ensures trust { Trusts (P.trust pen.old) result (P.trust pen.new) }
{
    for sum in sums {
        let line = sum_line(sum);
        pen.put(line.as_bytes(), &[])?;
    }
    Ok(())
}

/// Writes a bound: the line of its half-space, and one for each sum.
fn put_bound<P: Pen>(pen: &mut P, bound: &Bound) -> Result<(), WriteFault>
    requires some { 1 ≤ length bound.now.sums.items }
    ensures written { Written (P.seen pen.old) (map alone (bound_lines (bound_value bound.now)))
        result (P.seen pen.new) }
    ensures few { length bound.now.sums.items ≤ 64 }
    ensures trust { Trusts (P.trust pen.old) result (P.trust pen.new) }
{
    let first = bound_line(&BoundHead {
        half: bound.half,
        sums: bound.sums.len() as u8,
    });
    pen.put(first.as_bytes(), &[])?;
    put_sums(pen, &bound.sums)
}

/// Writes a bound along a direction, where one is found, and takes off what it leaves out.
fn put_along<P: Pen>(
    pen: &mut P,
    first: &[Row],
    used: &NewRows,
    left: &mut Left,
    outliers: u8,
    direction: &Direction,
) -> Result<(), WriteFault>
    requires few { length first.now ≤ 64 }
    requires forms { AreFormsOver first.now (rows_value used.now) (grid_box left.old.hull)
        (map form_value left.old.forms.items) }
    ensures written { WroteFound first.now (rows_value used.now) outliers
        (direction.now ∷ []) (grid_box left.old.hull) (grid_box left.new.hull)
        (P.seen pen.old) result (P.seen pen.new) }
    ensures forms { AreFormsOver first.now (rows_value used.now) (grid_box left.new.hull)
        (map form_value left.new.forms.items) }
    ensures trust { Trusts (P.trust pen.old) result (P.trust pen.new) }
{
    match bound_from_forms(&left.forms, &left.hull, outliers, direction) {
        Some(bound) => {
            left.narrow(first, used, &bound.half);
            put_bound(pen, &bound)
        }
        None => Ok(()),
    }
}

/// Writes at most one bound along each of the directions, in order, each shown over what those before
/// leave of the hull.
fn put_each<P: Pen>(
    pen: &mut P,
    first: &[Row],
    used: &NewRows,
    left: &mut Left,
    outliers: u8,
    directions: &[Direction],
) -> Result<(), WriteFault>
    requires few { length first.now ≤ 64 }
    requires forms { AreFormsOver first.now (rows_value used.now) (grid_box left.old.hull)
        (map form_value left.old.forms.items) }
    ensures written { WroteFound first.now (rows_value used.now) outliers
        directions.now (grid_box left.old.hull) (grid_box left.new.hull)
        (P.seen pen.old) result (P.seen pen.new) }
    ensures forms { AreFormsOver first.now (rows_value used.now) (grid_box left.new.hull)
        (map form_value left.new.forms.items) }
    ensures trust { Trusts (P.trust pen.old) result (P.trust pen.new) }
{
    for direction in directions {
        put_along(pen, first, used, left, outliers, direction)?;
    }
    Ok(())
}

/// The unit vectors of the axes, each with its opposite.
fn axes() -> [Direction; 6]
    ensures { AreAxes result }
{
    [
        Direction { x: 1, y: 0, z: 0 },
        Direction { x: -1, y: 0, z: 0 },
        Direction { x: 0, y: 1, z: 0 },
        Direction { x: 0, y: -1, z: 0 },
        Direction { x: 0, y: 0, z: 1 },
        Direction { x: 0, y: 0, z: -1 },
    ]
}

/// Writes bounds along the axes, where the hull is long.
fn put_axes<P: Pen>(
    pen: &mut P,
    first: &[Row],
    used: &NewRows,
    left: &mut Left,
    outliers: u8,
    axes: &[Direction],
) -> Result<(), WriteFault>
    requires few { length first.now ≤ 64 }
    requires forms { AreFormsOver first.now (rows_value used.now) (grid_box left.old.hull)
        (map form_value left.old.forms.items) }
    ensures written { WroteFound first.now (rows_value used.now) outliers
        axes.now (grid_box left.old.hull) (grid_box left.new.hull)
        (P.seen pen.old) result (P.seen pen.new) }
    ensures forms { AreFormsOver first.now (rows_value used.now) (grid_box left.new.hull)
        (map form_value left.new.forms.items) }
    ensures trust { Trusts (P.trust pen.old) result (P.trust pen.new) }
{
    let (_, length) = left.hull.longest_axis();
    if length <= LONG {
        return Ok(());
    }
    put_each(pen, first, used, left, outliers, axes)
}

/// Writes bounds that hold what fits in the hull of the kept boxes: along the axes, where the hull is
/// long, and then along the directions. Each is shown over what those before leave of the hull.
pub(crate) fn put_bounds<P: Pen>(
    pen: &mut P,
    first: &[Row],
    used: &NewRows,
    hull: &Box3,
    outliers: u8,
    directions: &[Direction],
) -> Result<(), WriteFault>
    requires few { length first.now ≤ 64 }
    ensures written { WroteBounds first.now (rows_value used.now) outliers directions.now
        (grid_box hull.now) (P.seen pen.old) result (P.seen pen.new) }
    ensures trust { Trusts (P.trust pen.old) result (P.trust pen.new) }
{
    let axes = axes();
    let mut left = Left::all(first, used, *hull);
    put_axes(pen, first, used, &mut left, outliers, &axes)?;
    put_each(pen, first, used, &mut left, outliers, directions)
}
