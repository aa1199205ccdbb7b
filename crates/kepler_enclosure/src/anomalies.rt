//! Eccentric anomalies, narrowed round by round from an interval that holds them all.

ghost use Rattle.std.specs.Prelude.{◌≡◌, ◌+◌, ◌*◌, ◌^◌, ℤ, pos, ◌≤ℤ◌, ◌+ℤ◌, ◌-ℤ◌, ◌*ℤ◌};
ghost use Rattle.grid_model.specs.Sizes.{IsWithin};
ghost use Rattle.grid_model.specs.Intervals.{Between};
ghost use Rattle.grid_model.specs.Rounding.{Near};
ghost use Rattle.grid_model.specs.Angles.{unit};
ghost use Rattle.grid_model.specs.Sines.{Sine};
ghost use Rattle.gnss_model.specs.Kepler.{Kepler};

use fix_interval::{Exact, UNIT};
use interval_trig::sine;

/// The greatest eccentricity, 0.2, in units of 10^-16.
pub const GREATEST_ECCENTRICITY: i128 = 2_000_000_000_000_000;

/// The mean anomaly, one eccentricity and four units more on each side: it holds every eccentric
/// anomaly.
fn start(m: Exact, e: Exact) -> Exact
    requires m_low { IsWithin (60 * unit) m.lo }
    requires m_high { IsWithin (60 * unit) m.hi }
    requires e_low { pos 0 ≤ℤ e.lo }
    requires e_high { e.hi ≤ℤ GREATEST_ECCENTRICITY }
    ensures holds { (a b x : ℤ) → Between m.lo m.hi a → Between e.lo e.hi b → Kepler a b x →
        Between result.lo result.hi x }
    ensures width { (result.hi -ℤ result.lo) ≤ℤ ((m.hi -ℤ m.lo) +ℤ (e.hi +ℤ e.hi) +ℤ pos 8) }
    ensures low_size { IsWithin (61 * unit) result.lo }
    ensures high_size { IsWithin (61 * unit) result.hi }
{
    let reach = e.hi + 4;
    Exact {
        lo: m.lo - reach,
        hi: m.hi + reach,
    }
}

/// One unit more at the high end: it holds x + 1 for every member x too.
fn with_next(x: Exact) -> Exact
    requires low_size { IsWithin (61 * unit) x.lo }
    requires high_size { IsWithin (61 * unit) x.hi }
    ensures low { result.lo ≡ x.lo }
    ensures high { result.hi ≡ x.hi +ℤ pos 1 }
{
    Exact {
        lo: x.lo,
        hi: x.hi + 1,
    }
}

/// Every e sin y, for y from the low end of x to one unit beyond the high end.
fn swing(e: Exact, x: Exact) -> Exact
    requires e_low { pos 0 ≤ℤ e.lo }
    requires e_high { e.hi ≤ℤ GREATEST_ECCENTRICITY }
    requires x_low { IsWithin (61 * unit) x.lo }
    requires x_high { IsWithin (61 * unit) x.hi }
    ensures holds { (b y s v : ℤ) → Between e.lo e.hi b → Between x.lo (x.hi +ℤ pos 1) y →
        Sine y s → Near (b *ℤ s) (pos unit) v → Between result.lo result.hi v }
    ensures width { (pos 5 *ℤ (result.hi -ℤ result.lo))
        ≤ℤ ((x.hi -ℤ x.lo) +ℤ (pos 5 *ℤ (e.hi -ℤ e.lo)) +ℤ pos 55) }
    ensures low_size { IsWithin (2 * 10 ^ 15 + 4) result.lo }
    ensures high_size { IsWithin (2 * 10 ^ 15 + 4) result.hi }
{
    e.times_over(sine(with_next(x)), UNIT)
}

/// The mean anomaly and p, one unit more at the low end.
fn moved(m: Exact, p: Exact) -> Exact
    requires m_low { IsWithin (60 * unit) m.lo }
    requires m_high { IsWithin (60 * unit) m.hi }
    requires p_low { IsWithin unit p.lo }
    requires p_high { IsWithin unit p.hi }
    ensures low { result.lo ≡ (m.lo -ℤ pos 1) +ℤ p.lo }
    ensures high { result.hi ≡ m.hi +ℤ p.hi }
{
    Exact {
        lo: m.lo - 1 + p.lo,
        hi: m.hi + p.hi,
    }
}

/// The members of x that can be eccentric anomalies: those that are m + e sin x for a member.
fn narrowed(m: Exact, e: Exact, x: Exact) -> Exact
    requires m_low { IsWithin (60 * unit) m.lo }
    requires m_high { IsWithin (60 * unit) m.hi }
    requires e_low { pos 0 ≤ℤ e.lo }
    requires e_high { e.hi ≤ℤ GREATEST_ECCENTRICITY }
    requires x_low { IsWithin (61 * unit) x.lo }
    requires x_high { IsWithin (61 * unit) x.hi }
    ensures holds { (a b y : ℤ) → Between m.lo m.hi a → Between e.lo e.hi b → Between x.lo x.hi y →
        Kepler a b y → Between result.lo result.hi y }
    ensures width { (pos 5 *ℤ (result.hi -ℤ result.lo))
        ≤ℤ (pos 5 *ℤ (m.hi -ℤ m.lo) +ℤ (pos 5 *ℤ (e.hi -ℤ e.lo)) +ℤ (x.hi -ℤ x.lo) +ℤ pos 60) }
    ensures low_size { IsWithin (61 * unit) result.lo }
    ensures high_size { IsWithin (61 * unit) result.hi }
{
    moved(m, swing(e, x))
}

/// By how much the start may be too wide.
fn first_excess(e: Exact) -> u128
    requires e_low { pos 0 ≤ℤ e.lo }
    requires e_high { e.hi ≤ℤ GREATEST_ECCENTRICITY }
    ensures value { pos result ≡ e.hi +ℤ e.hi }
{
    (e.hi + e.hi) as u128
}

/// Every eccentric anomaly of a mean anomaly from `m` and an eccentricity from `e`, in units of
/// 10^-16: the ends of `m` are within 60 rad, those of `e` from 0 to `GREATEST_ECCENTRICITY`. The
/// result is at most `2 * (width of m + width of e) + 64` wide.
pub fn eccentric(m: Exact, e: Exact) -> Exact
    requires m_low { IsWithin (60 * unit) m.lo }
    requires m_high { IsWithin (60 * unit) m.hi }
    requires e_low { pos 0 ≤ℤ e.lo }
    requires e_high { e.hi ≤ℤ GREATEST_ECCENTRICITY }
    ensures holds { (a b x : ℤ) → Between m.lo m.hi a → Between e.lo e.hi b → Kepler a b x →
        Between result.lo result.hi x }
    ensures width { (result.hi -ℤ result.lo)
        ≤ℤ (pos 2 *ℤ ((m.hi -ℤ m.lo) +ℤ (e.hi -ℤ e.lo)) +ℤ pos 64) }

    // Within the angles whose sine and cosine are taken.
    ensures low_size { IsWithin (61 * unit) result.lo }
    ensures high_size { IsWithin (61 * unit) result.hi }
{
    let mut x = start(m, e);
    let mut excess = first_excess(e);
    // Each round takes four fifths of the excess away, and after one that changes nothing no other
    // does.
    while excess > 40 {
        let next = narrowed(m, e, x);
        if next.lo == x.lo && next.hi == x.hi {
            return x;
        }
        x = next;
        excess = excess / 5 + 1;
    }
    x
}
