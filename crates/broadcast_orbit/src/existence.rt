//! Every time near the ephemeris time has a place.

ghost use Rattle.std.specs.Prelude.{ℤ};
ghost use Rattle.gnss_model.specs.OrbitChain.{OrbitChain};
ghost use Rattle.gnss_model.specs.declared.elements.Elements.{Elements};

/// For every record, every mean motion and every time there is a place that the equations of the
/// orbit allow, so that what `place` holds isn't empty. The call does nothing.
pub fn orbit_exists()
    ensures { (el : Elements) (n t : ℤ) → (x : ℤ) × (y : ℤ) × (z : ℤ) × OrbitChain el n t x y z }
{}
