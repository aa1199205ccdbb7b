//! Every place has a turned place.

ghost use Rattle.std.specs.Prelude.{ℕ, ℤ};
ghost use Rattle.gnss_model.specs.Turn.{Turn};
ghost use Rattle.grid_model.specs.declared.boxes.Pos.{Pos};

/// For every place and every point from which it is seen there are a turned place and a range that
/// the equations allow, so that what `turned` holds isn't empty. The call does nothing.
pub fn turn_exists()
    ensures { (p : Pos) (x y z : ℤ) → (tx : ℤ) × (ty : ℤ) × (r : ℕ) × Turn p x y z tx ty r }
{}
