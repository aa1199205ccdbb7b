//! Whole-number roots.

ghost use Rattle.std.specs.Prelude.{◌↔◌, IsTrue};
ghost use Rattle.grid_model.specs.Roots.{IsRoot};

/// The whole-number root of `a`: the `v` with `v^2 <= a < (v + 1)^2`.
///
/// It is guessed with divisions in 64 bits and then tested. Where the guess is wrong it is found
/// bit by bit, so nothing has to be known of the guess.
pub fn root_u128(a: u128) -> u64
    ensures { IsRoot a result }
{
    let guess = guess(a);
    if is_root(a, guess) {
        guess
    } else {
        a.isqrt() as u64
    }
}

/// Whether `v` is the whole-number root of `a`.
fn is_root(a: u128, v: u64) -> bool
    ensures { IsTrue result ↔ IsRoot a v }
{
    let square = u128::from(v) * u128::from(v);
    square <= a && a - square <= 2 * u128::from(v)
}

/// A guess of the root of a number from 2^64 to 2^112, which squared distances of satellites and
/// squares of cosines are, and which is seldom wrong; 0 for others. The 64 bits in front give 31
/// bits of the root, and one division of what is left over the rest.
fn guess(a: u128) -> u64 {
    let high = low_bits(a >> 64);
    if high == 0 || high >> 48 != 0 {
        return 0;
    }
    let spare = high.leading_zeros() & 62;
    let front = (high << spare) | (low_bits(a) >> (63 - spare) >> 1);
    let root = (root_of_front(front) << (32 - spare / 2)).max(131_072);
    let left_over = a.wrapping_sub(u128::from(root) * u128::from(root));
    root.wrapping_add(low_bits(left_over >> 18) / (root >> 17))
}

/// A guess of the root of a number from 2^62 on, not above it: that of a straight line, which is
/// wrong by at most an eighth, made better three times by Newton's step.
fn root_of_front(front: u64) -> u64 {
    let line = 1_879_048_192 + (front >> 33);
    newton(front, newton(front, newton(front, line))).saturating_sub(1)
}

/// Newton's step towards the root of `a`.
fn newton(a: u64, root: u64) -> u64 {
    root.wrapping_add(a / root.max(1)) / 2
}

/// The low 64 bits.
fn low_bits(a: u128) -> u64 {
    (a & u128::from(u64::MAX)) as u64
}

/// The whole-number root of `a`, as `root_u128`, with numbers of 64 bits alone.
pub fn root_u64(a: u64) -> u64
    ensures { IsRoot a result }
{
    let guess = guess_u64(a);
    let less = guess.saturating_sub(1);
    if is_root_u64(a, guess) {
        guess
    } else if is_root_u64(a, less) {
        less
    } else {
        a.isqrt()
    }
}

/// Whether `v` is the whole-number root of `a`.
fn is_root_u64(a: u64, v: u64) -> bool
    ensures { IsTrue result ↔ IsRoot a v }
{
    if v >> 32 != 0 {
        return false;
    }
    let square = v * v;
    square <= a && a - square <= 2 * v
}

/// A guess of the root of `a`, seldom wrong and then mostly by one more: that of `a` with an even
/// number of places put after it, without half of them.
fn guess_u64(a: u64) -> u64 {
    let spare = a.leading_zeros() & 62;
    let front = a << spare;
    newton(front, root_of_front(front)) >> (spare / 2)
}
