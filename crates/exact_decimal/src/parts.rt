//! The parts of a number field, from left to right.

ghost use Rattle.std.specs.Prelude.{◌≡◌, ◌<◌, ◌≤◌, ◌+◌, ◌-◌, ◌^◌, ◌++◌, length, true, pos, ◌≤ℤ◌};
ghost use Rattle.std.specs.Prelude.{IfSome, option_map};
ghost use Rattle.std.specs.Char.{is_ascii_digit};
ghost use Rattle.std.specs.List.{prefix_len};
ghost use Rattle.std.specs.Str.Parse.{digits_value_after, digits_value};
ghost use Rattle.exact_decimal.specs.NumberFields.{is_blank, AreDigits, signed};
ghost use Rattle.exact_decimal.specs.Parts.{front, behind, is_negative, behind_sign, fraction_of};
ghost use Rattle.exact_decimal.specs.Parts.{behind_fraction, whole_at, fraction_at};
ghost use Rattle.exact_decimal.specs.Parts.{behind_mantissa, has_digits, exponent_of};
ghost use Rattle.exact_decimal.specs.Parts.{exponent_behind, is_blank_text};
ghost use Rattle.grid_model.specs.Sizes.{IsWithin};

/// How many digits stand at the front.
fn digits_in_front(text: &[u8]) -> usize
    ensures count { result ≡ prefix_len is_ascii_digit text.now }
    ensures within { result ≤ length text.now }
{
    for (count, byte) in text.iter().enumerate() {
        if !byte.is_ascii_digit() {
            return count;
        }
    }
    text.len()
}

/// How many blanks stand at the front.
fn blanks_in_front(text: &[u8]) -> usize
    ensures count { result ≡ prefix_len is_blank text.now }
    ensures within { result ≤ length text.now }
{
    for (count, byte) in text.iter().enumerate() {
        if *byte != b' ' && *byte != b'\t' {
            return count;
        }
    }
    text.len()
}

/// The digits at the front, and the rest.
pub fn split_digits(text: &[u8]) -> (&[u8], &[u8])
    ensures digits { result.0.now ≡ front is_ascii_digit text.now }
    ensures rest { result.1.now ≡ behind is_ascii_digit text.now }
    ensures are_digits { AreDigits result.0.now }
{
    text.split_at(digits_in_front(text))
}

/// What stands behind the blanks at the front.
pub fn behind_blanks(text: &[u8]) -> &[u8]
    ensures { result.now ≡ behind is_blank text.now }
{
    &text[blanks_in_front(text)..]
}

/// Whether only blanks stand here.
pub fn is_blank_text(text: &[u8]) -> bool
    ensures { result ≡ is_blank_text text.now }
{
    behind_blanks(text).is_empty()
}

/// Whether a minus sign stands at the front, and what stands behind a sign.
fn split_sign(text: &[u8]) -> (bool, &[u8])
    ensures negative { result.0 ≡ is_negative text.now }
    ensures rest { result.1.now ≡ behind_sign text.now }
{
    match text {
        [b'-', rest @ ..] => (true, rest),
        [b'+', rest @ ..] => (false, rest),
        _ => (false, text),
    }
}

/// The digits behind a point at the front, and the rest.
fn split_fraction(text: &[u8]) -> (&[u8], &[u8])
    ensures digits { result.0.now ≡ fraction_of text.now }
    ensures rest { result.1.now ≡ behind_fraction text.now }
    ensures are_digits { AreDigits result.0.now }
{
    match text {
        [b'.', rest @ ..] => split_digits(rest),
        _ => (&[], text),
    }
}

/// The number that the digits write when they follow those of `front`.
pub fn number_after(front: u64, digits: &[u8]) -> u64
    requires digits { AreDigits digits.now }
    requires short { length digits.now ≤ 18 }
    requires room { front < 10 ^ (18 - length digits.now) }
    ensures value { result ≡ digits_value_after 10 front digits.now }
    ensures bound { result < 10 ^ 18 }
{
    let mut number = front;
    for digit in digits {
        number = number * 10 + u64::from(digit - b'0');
    }
    number
}

/// The amount with a sign.
pub fn signed_by(negative: bool, amount: u64) -> i64
    requires { amount < 10 ^ 18 }
    ensures { result ≡ signed negative amount }
{
    let amount = amount as i64;
    if negative { -amount } else { amount }
}

/// A sign, digits, and digits behind a point.
#[derive(Clone, Copy)]
pub struct Mantissa<'a> {
    pub negative: bool,
    pub whole: &'a [u8],
    pub fraction: &'a [u8],
    /// What stands behind them.
    pub rest: &'a [u8],
}

impl<'a> Mantissa<'a> {
    /// The mantissa at the front.
    pub fn at_front(text: &'a [u8]) -> Mantissa<'a>
        ensures negative { result.negative ≡ is_negative text.now }
        ensures whole { result.whole.now ≡ whole_at text.now }
        ensures fraction { result.fraction.now ≡ fraction_at text.now }
        ensures rest { result.rest.now ≡ behind_mantissa text.now }
        ensures whole_digits { AreDigits result.whole.now }
        ensures fraction_digits { AreDigits result.fraction.now }
    {
        let (negative, text) = split_sign(text);
        let (whole, text) = split_digits(text);
        let (fraction, rest) = split_fraction(text);
        Mantissa {
            negative,
            whole,
            fraction,
            rest,
        }
    }

    /// Whether it has 1 to 18 digits.
    pub fn has_digits(&self) -> bool
        ensures { result ≡ has_digits self.now.whole.now self.now.fraction.now }
    {
        let count = self.whole.len().saturating_add(self.fraction.len());
        1 <= count && count <= 18
    }

    /// The number that the digits write without the point, with the sign.
    pub fn digits(&self) -> i64
        requires whole { AreDigits self.now.whole.now }
        requires fraction { AreDigits self.now.fraction.now }
        requires some { has_digits self.now.whole.now self.now.fraction.now ≡ true }
        ensures { result ≡ signed self.now.negative
            (digits_value 10 (self.now.whole.now ++ self.now.fraction.now)) }
    {
        let whole = number_after(0, self.whole);
        signed_by(self.negative, number_after(whole, self.fraction))
    }

    /// How many digits stand behind the point.
    pub fn decimals(&self) -> i8
        requires { has_digits self.now.whole.now self.now.fraction.now ≡ true }
        ensures value { result ≡ pos (length self.now.fraction.now) }
        ensures bound { result ≤ℤ pos 18 }
    {
        self.fraction.len() as i8
    }
}

/// The exponent at the front, which is 0 where there is no letter, and what stands behind it; none
/// where a letter has no exponent behind it.
pub fn split_exponent(text: &[u8]) -> Option<(i8, &[u8])>
    ensures exponent { option_map (λ found. (found.0, found.1.now)) result ≡ exponent_of text.now }
    ensures bound { IfSome result (λ found. IsWithin 99 found.0) }
{
    match text {
        [b'D' | b'd' | b'E' | b'e', rest @ ..] => exponent_behind(rest),
        _ => Some((0, text)),
    }
}

/// The same number in fewer bits.
pub fn small(number: i64) -> i8
    requires { IsWithin 99 number }
    ensures same { result ≡ number }
    ensures within { IsWithin 99 result }
{
    number as i8
}

/// The sign and the digits of an exponent, and what stands behind them.
fn exponent_behind(text: &[u8]) -> Option<(i8, &[u8])>
    ensures exponent { option_map (λ found. (found.0, found.1.now)) result
        ≡ exponent_behind text.now }
    ensures bound { IfSome result (λ found. IsWithin 99 found.0) }
{
    let (negative, text) = split_sign(text);
    let (digits, rest) = split_digits(text);
    if digits.is_empty() || digits.len() > 2 {
        return None;
    }
    let exponent = small(signed_by(negative, number_after(0, digits)));
    Some((exponent, rest))
}
