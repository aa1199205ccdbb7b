//! Boxes by their sides.

ghost use Rattle.std.specs.Prelude.{◌≡◌, option_map, Some, IsTrue};
ghost use Rattle.grid_model.specs.Boxes.{grid_box, side_at, span_side};
ghost use Rattle.grid_model.specs.Sizes.{IsBoxSize};

use grid_model::{Box3, Pos, Span};

/// The side of a box on an axis: 0 for x, 1 for y, and z for each other number.
pub(crate) fn side_of(part: &Box3, axis: u8) -> Span
    ensures side { span_side result ≡ side_at axis (grid_box part.now) }
    ensures lo_size { IsBoxSize result.lo }
    ensures hi_size { IsBoxSize result.hi }
{
    let (lo, hi) = part.side(axis);
    Span { lo, hi }
}

/// The box with these sides.
pub(crate) fn box_of(x: &Span, y: &Span, z: &Span) -> Box3
    requires x_size { IsBoxSize x.now.lo × IsBoxSize x.now.hi }
    requires y_size { IsBoxSize y.now.lo × IsBoxSize y.now.hi }
    requires z_size { IsBoxSize z.now.lo × IsBoxSize z.now.hi }
    ensures { grid_box result ≡ record {
      x = span_side x.now;
      y = span_side y.now;
      z = span_side z.now;
    } }
{
    Box3 {
        lo: Pos {
            x: x.lo,
            y: y.lo,
            z: z.lo,
        },
        hi: Pos {
            x: x.hi,
            y: y.hi,
            z: z.hi,
        },
    }
}

/// Whether all of the box is kept.
pub(crate) fn is_all(kept: &Option<Box3>, part: &Box3) -> bool
    ensures { IsTrue result → option_map grid_box kept.now ≡ Some (grid_box part.now) }
{
    match kept {
        Some(left) => *left == *part,
        None => false,
    }
}
