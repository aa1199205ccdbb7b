//! When a signal was sent by the satellite's clock, and the pseudorange less the clock's offset
//! (IS-GPS-200, 20.3.3.3.3).

ghost use Rattle.std.specs.Prelude.{ℕ, ◌+◌, ◌*◌, ◌^◌, ◌≤◌, ℤ, pos, ◌-ℤ◌, ◌*ℤ◌, ◌≤ℤ◌, ◌<ℤ◌};
ghost use Rattle.fix_interval.specs.Factors.{Holds, HasEnds};
ghost use Rattle.pseudorange_prep.specs.Ranges.{IsNarrow};
ghost use Rattle.gnss_model.specs.EarthModel.{light_speed};
ghost use Rattle.gnss_model.specs.Pseudorange.{IsSent, IsCorrected};
ghost use Rattle.gnss_model.specs.RecordBounds.{time_bound};
ghost use Rattle.grid_model.specs.Rounding.{Near};
ghost use Rattle.grid_model.specs.Sizes.{IsWithin};

use fix_interval::Exact;

/// The speed of light, in m/s.
const LIGHT_SPEED: i128 = 299_792_458;

/// A length in um over the speed of light in m/s is a time in 10^-6 s: so many ps.
const PS_SCALE: i128 = 1_000_000;

/// A time in 10^-16 s times the speed of light in m/s is a length in 10^-16 m: so many are a um.
const UM_SCALE: i128 = 10_000_000_000;

/// When a signal was sent by the satellite's clock that was received at `tag` by the receiver's, in
/// ps since 1980-01-06 00:00:00 GPS time. The pseudorange is within 10^15 um.
pub fn sent_at(tag: i128, range: Exact) -> Exact
    requires tag_from { pos 0 ≤ℤ tag }
    requires tag_under { tag <ℤ pos time_bound }
    requires low_size { IsWithin (10 ^ 15) range.lo }
    requires high_size { IsWithin (10 ^ 15) range.hi }
    ensures holds { (p v : ℤ) → Holds range p → IsSent tag p v → Holds result v }
    ensures width { IsNarrow 1008 range.lo range.hi → IsNarrow 8 result.lo result.hi }
    // The way takes at most four seconds.
    ensures low_near { IsWithin (4 * 10 ^ 12) (tag -ℤ result.lo) }
    ensures high_near { IsWithin (4 * 10 ^ 12) (tag -ℤ result.hi) }
{
    let way = over_light(range);
    Exact {
        lo: tag - way.hi,
        hi: tag - way.lo,
    }
}

/// How long light takes for a length, in ps.
fn over_light(length: Exact) -> Exact
    requires low_size { IsWithin (10 ^ 15) length.lo }
    requires high_size { IsWithin (10 ^ 15) length.hi }
    ensures holds { (p v : ℤ) → Holds length p → Near (p *ℤ pos (10 ^ 6)) (pos light_speed) v →
        Holds result v }
    ensures ends { HasEnds (4 * 10 ^ 12) (8 * 10 ^ 12) result }
    ensures width { IsNarrow 1008 length.lo length.hi → IsNarrow 8 result.lo result.hi }
{
    let scale = Exact {
        lo: PS_SCALE,
        hi: PS_SCALE,
    };
    length.times_over(scale, LIGHT_SPEED)
}

/// The pseudorange less what the clock's offset, in 10^-16 s and within 1 s, makes of it, in um.
pub fn corrected(range: Exact, offset: Exact) -> Exact
    requires range_low { IsWithin (10 ^ 15) range.lo }
    requires range_high { IsWithin (10 ^ 15) range.hi }
    requires offset_low { IsWithin (10 ^ 16) offset.lo }
    requires offset_high { IsWithin (10 ^ 16) offset.hi }
    ensures holds { (p d v : ℤ) → Holds range p → Holds offset d → IsCorrected p d v →
        Holds result v }
    ensures width { (w : ℕ) → IsNarrow w range.lo range.hi → IsNarrow 64 offset.lo offset.hi →
        IsNarrow (w + 24) result.lo result.hi }
    ensures ends { (l u m v k j : ℕ) → HasEnds l u range → HasEnds m v offset →
        m * light_speed ≤ k * 10 ^ 10 → v * light_speed ≤ j * 10 ^ 10 →
        HasEnds (l + (k + 2)) (u + (j + 4)) result }
{
    range.plus(times_light(offset))
}

/// How far light goes in a time in 10^-16 s, in um.
fn times_light(time: Exact) -> Exact
    requires low_size { IsWithin (10 ^ 16) time.lo }
    requires high_size { IsWithin (10 ^ 16) time.hi }
    ensures holds { (d v : ℤ) → Holds time d → Near (d *ℤ pos light_speed) (pos (10 ^ 10)) v →
        Holds result v }
    ensures ends { (m v k j : ℕ) → HasEnds m v time → m * light_speed ≤ k * 10 ^ 10 →
        v * light_speed ≤ j * 10 ^ 10 → HasEnds (k + 2) (j + 4) result }
{
    let light = Exact {
        lo: LIGHT_SPEED,
        hi: LIGHT_SPEED,
    };
    time.times_over(light, UM_SCALE)
}
