//! The greatest numbers of a list.

ghost use Rattle.std.specs.Prelude.{◌≡◌, ◌+◌, ◌≤◌, ◌++◌, ◌∷◌, [], length, map, min, ℤ, IsTrue};
ghost use Rattle.relaxed_meet.specs.Kept.{above, IsFalling, IsKeptUpTo, Keeps, mirrored};

use arrayvec::ArrayVec;
use grid_model::Span;

/// Numbers in falling order.
pub(crate) type Falling = ArrayVec<i64, 64>;

/// Puts a number into numbers in falling order, and gives the least of them all, which has no
/// place.
fn carry_past(kept: &mut [i64], number: i64) -> i64
    requires { IsFalling kept.old }
    ensures { IsKeptUpTo (length kept.old) kept.new kept.old result number }
{
    let mut carried = number;
    for place in 0..kept.len() {
        let next = kept[place];
        if next < carried {
            kept[place] = carried;
            carried = next;
        }
    }
    carried
}

/// Whether `most` numbers are kept and none is less than this one, which then has no place there.
fn is_past(kept: &[i64], number: i64, most: usize) -> bool
    requires falling { IsFalling kept.now }
    requires room { length kept.now ≤ most }
    ensures full { IsTrue result → length kept.now ≡ most }
    ensures same_above { IsTrue result → (b : ℤ) → above b kept.now
        ≡ min (above b (kept.now ++ number ∷ [])) most }
{
    if most == 0 {
        return false;
    }
    kept.len() == most && number <= kept[most - 1]
}

/// Puts a number among these, and leaves the least out where there would be more than `most`.
fn put_in(kept: &mut Falling, number: i64, most: usize)
    requires falling { IsFalling kept.old.items }
    requires room { (length kept.old.items ≤ most) × (most ≤ 64) }
    ensures falling { IsFalling kept.new.items }
    ensures count { length kept.new.items ≡ min (length kept.old.items + 1) most }
    ensures same_above { (b : ℤ) → above b kept.new.items
        ≡ min (above b (kept.old.items ++ number ∷ [])) most }
{
    let least = carry_past(kept, number);
    if kept.len() < most {
        kept.push(least);
    }
}

/// Puts a number among the greatest, `most` of them at most.
pub(crate) fn keep(kept: &mut Falling, number: i64, most: usize)
    requires falling { IsFalling kept.old.items }
    requires room { (length kept.old.items ≤ most) × (most ≤ 64) }
    ensures falling { IsFalling kept.new.items }
    ensures count { length kept.new.items ≡ min (length kept.old.items + 1) most }
    ensures same_above { (b : ℤ) → above b kept.new.items
        ≡ min (above b (kept.old.items ++ number ∷ [])) most }
{
    if is_past(kept, number, most) {
        return;
    }
    put_in(kept, number, most);
}

/// Puts the greatest low ends of the spans into `lows` and the least high ends, mirrored, into
/// `highs`: `most` of each.
pub(crate) fn extremes(spans: &[Span], most: usize, lows: &mut Falling, highs: &mut Falling)
    requires most { most ≤ 64 }
    requires no_lows { lows.old.items ≡ [] }
    requires no_highs { highs.old.items ≡ [] }
    ensures lows { Keeps most lows.new.items (map (λ s. s.lo) spans.now) }
    ensures highs { Keeps most highs.new.items (map (λ s. mirrored s.hi) spans.now) }
{
    for span in spans {
        keep(lows, span.lo, most);
        keep(highs, -1 - span.hi, most);
    }
}
