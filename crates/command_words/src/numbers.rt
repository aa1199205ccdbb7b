//! Numbers among the words.

ghost use Rattle.std.specs.Prelude.{◌≡◌, ◌≤◌, IfSome, true};
ghost use Rattle.std.specs.Char.{is_ascii_digit};
ghost use Rattle.std.specs.List.{list_all};
ghost use Rattle.command_words.specs.Numbers.{leads, is_numeral, number_in};

/// Whether there is a first byte, and it is no zero in front of another one.
fn leads(digits: &[u8]) -> bool
    ensures { result ≡ leads digits.now }
{
    match digits {
        [] => false,
        [_] => true,
        [first, _, ..] => *first != b'0',
    }
}

/// Whether the bytes are decimal digits.
fn are_digits(bytes: &[u8]) -> bool
    ensures { result ≡ list_all is_ascii_digit bytes.now }
{
    bytes.iter().all(|byte| byte.is_ascii_digit())
}

/// Whether the text is decimal digits, with no zero in front of another digit.
fn is_numeral(text: &str) -> bool
    ensures { result ≡ is_numeral text.now }
{
    let bytes = text.as_bytes();
    if are_digits(bytes) {
        return leads(bytes);
    }
    false
}

/// The number that digits write, where it lies from `low` to `high`.
fn parsed(digits: &str, low: u32, high: u32) -> Option<u32>
    requires { is_numeral digits.now ≡ true }
    ensures value { result ≡ number_in low high digits.now }
    ensures range { IfSome result (λ n. (low ≤ n) × (n ≤ high)) }
{
    match digits.parse::<u32>() {
        Ok(number) => {
            if low <= number && number <= high {
                return Some(number);
            }
            None
        }
        Err(_) => None,
    }
}

/// The number that a text writes, where it lies from `low` to `high`.
pub(crate) fn number_in(text: &str, low: u32, high: u32) -> Option<u32>
    ensures value { result ≡ number_in low high text.now }
    ensures range { IfSome result (λ n. (low ≤ n) × (n ≤ high)) }
{
    if is_numeral(text) {
        return parsed(text, low, high);
    }
    None
}
