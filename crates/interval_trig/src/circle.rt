//! A law on sine and cosine together.

ghost use Rattle.std.specs.Prelude.{◌*◌, ℤ};
ghost use Rattle.grid_model.specs.Sizes.{IsWithin};
ghost use Rattle.grid_model.specs.Angles.{unit};
ghost use Rattle.grid_model.specs.Sines.{Sine, Cosine, NearCircle};

/// The law: `s^2 + c^2` is within 16 units of one, for every value `s` of the sine and `c` of the
/// cosine of an angle within 64 rad. The call does nothing.
pub fn circle_law()
    ensures { (x s c : ℤ) → IsWithin (64 * unit) x → Sine x s → Cosine x c → NearCircle s c }
{}
