//! Fixed-point numbers of 64 bits, with 28 of them behind the point. What doesn't fit is 0.

/// One.
pub(crate) const ONE: i64 = 268_435_456;

/// The number in 64 bits, or 0.
pub(crate) fn cut(number: i128) -> i64 {
    i64::try_from(number).unwrap_or(0)
}

/// A product with 56 bits behind the point.
pub(crate) fn wide_product(a: i64, b: i64) -> i128 {
    i128::from(a).wrapping_mul(i128::from(b))
}

/// A sum of such products, with 28 bits again.
pub(crate) fn narrowed(sum: i128) -> i64 {
    cut(sum >> 28)
}

pub(crate) fn product(a: i64, b: i64) -> i64 {
    narrowed(wide_product(a, b))
}

/// a / b, or 0 where b is 0.
pub(crate) fn quotient(a: i64, b: i64) -> i64 {
    cut(ratio(wide_product(a, ONE), i128::from(b)))
}

/// The whole number of num / den towards 0, or 0 where den is 0.
pub(crate) fn ratio(num: i128, den: i128) -> i128 {
    num.checked_div(den).unwrap_or(0)
}

/// num / den, rounded down where den is positive, or 0 where it is 0.
pub(crate) fn floor_ratio(num: i128, den: i128) -> i128 {
    num.checked_div_euclid(den).unwrap_or(0)
}
