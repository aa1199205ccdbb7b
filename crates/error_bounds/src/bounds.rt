//! The bounds that are declared for every satellite, and sums of bounds.

ghost use Rattle.std.specs.Prelude.{◌≡◌, ℕ, ◌+◌};
ghost use Rattle.gnss_model.specs.Delays.{AreDelays};
ghost use Rattle.sat_model.specs.Relaxed.{ends};
ghost use Rattle.error_bounds.specs.Sizes.{IsDeclared, IsSpanWithin, IsSumOfFour};
ghost use Rattle.error_bounds.specs.Texts.{add};

use gnss_model::Delays;
use grid_model::Span;

/// What the keys of `bounds` give.
#[derive(Clone, Copy)]
pub struct Bounds {
    /// The sum of the four spans that have to be there.
    pub common: Span,
    pub delays: Delays,
    pub ghost common_within: { IsSumOfFour common },
    pub ghost delays_within: { AreDelays delays },
}

/// The sum of two spans: of up to five declared ones, and of one more.
pub fn sum(a: Span, b: Span) -> Span
    requires a_within { IsSpanWithin 5000000000 a }
    requires b_within { IsDeclared b }
    ensures value { ends result ≡ add (ends a) (ends b) }
    ensures within { (n : ℕ) → IsSpanWithin n a → IsSpanWithin (n + 1000000000) result }
{
    Span {
        lo: a.lo + b.lo,
        hi: a.hi + b.hi,
    }
}
