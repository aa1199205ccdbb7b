//! A law on the clock chain.

ghost use Rattle.std.specs.Prelude.{◌≡◌, Bool, ℤ};
ghost use Rattle.gnss_model.specs.ClockChain.{ClockChain, ClockChainOf};
ghost use Rattle.gnss_model.specs.MeanMotion.{MeanMotion, MeanMotionOf};
ghost use Rattle.gnss_model.specs.declared.elements.Elements.{Elements};
ghost use Rattle.gnss_model.specs.declared.systems.System.{System};

/// The law: for every ephemeris of a system's satellite and every time there are a mean motion, and
/// with it and its root of the semi-major axis a clock offset and a time of sending. The call does
/// nothing.
pub fn system_clock_exists()
    ensures { (system : System) → (el : Elements) → (single : Bool) → (tsv : ℤ) → (n : ℤ)
        × (motion : MeanMotionOf system el n) × (dt : ℤ) × (t : ℤ)
        × (clock : ClockChainOf system el single n tsv dt t) × (clock.f.root_a ≡ motion.root_a) }
{}

/// The same of GPS satellites.
pub fn clock_exists()
    ensures { (el : Elements) → (single : Bool) → (tsv : ℤ) → (n : ℤ) × (motion : MeanMotion el n)
        × (dt : ℤ) × (t : ℤ) × (clock : ClockChain el single n tsv dt t)
        × (clock.f.root_a ≡ motion.root_a) }
{}
