//! Every place that is far enough has a mapping.

ghost use Rattle.std.specs.Prelude.{◌*◌, ◌^◌, ◌≤◌, ℤ, ◌-ℤ◌};
ghost use Rattle.grid_model.specs.Amounts.{square};
ghost use Rattle.grid_model.specs.Ranges.{range_to};
ghost use Rattle.grid_model.specs.Squares.{sum_of_squares};
ghost use Rattle.grid_model.specs.declared.boxes.Pos.{Pos};
ghost use Rattle.gnss_model.specs.Mapping.{Mapping};
ghost use Rattle.gnss_model.specs.declared.delays.Layer.{Layer};

/// At every point that is at least 6,000 km from the origin and 5,000 km from a place the equations
/// allow a mapping of each layer, so that what `mapped` holds isn't empty. The call does nothing.
pub fn mapping_exists()
    ensures { (layer : Layer) (p : Pos) (x y z : ℤ)
        → square (6 * 10 ^ 12) ≤ sum_of_squares p.x p.y p.z
        → square (5 * 10 ^ 12) ≤ sum_of_squares (x -ℤ p.x) (y -ℤ p.y) (z -ℤ p.z) → (factor : ℤ)
        × Mapping layer p x y z (range_to x y z p) factor }
{}
