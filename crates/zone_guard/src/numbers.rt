//! Numbers of more than 64 bits.

ghost use Rattle.std.specs.Prelude.{◌≡◌, ℕ, ℤ, ◌≤◌, IfSome, IfNone};
ghost use Rattle.std.specs.Fmt.{decimal, signed_decimal};
ghost use Rattle.grid_model.specs.Sizes.{IsWithin};

use itoa::Buffer;

/// The greatest amount of a side's limit.
const GREATEST: u128 = 100_000_000_000_000_000_000;

/// The amount that digits spell, in the one spelling.
fn amount_of(digits: &[u8]) -> Option<u128>
    ensures found { IfSome result (λ n. (digits.now ≡ decimal n) × (n ≤ 100000000000000000000)) }
    ensures none { IfNone result ((n : ℕ) → n ≤ 100000000000000000000 → digits.now ≡ decimal n
        → ⊥) }
{
    let text = match str::from_utf8(digits) {
        Ok(text) => text,
        Err(_) => return None,
    };
    let amount = match text.parse::<u128>() {
        Ok(amount) => amount,
        Err(_) => return None,
    };
    let mut buffer = Buffer::new();
    let spelled = buffer.format(amount).as_bytes();
    if amount <= GREATEST && spelled == digits {
        Some(amount)
    } else {
        None
    }
}

/// The limit that the word spells, in the one spelling.
pub fn limit_of(word: &[u8]) -> Option<i128>
    ensures found { IfSome result (λ n. (word.now ≡ signed_decimal n)
        × IsWithin 100000000000000000000 n) }
    ensures none { IfNone result ((n : ℤ) → IsWithin 100000000000000000000 n
        → word.now ≡ signed_decimal n → ⊥) }
{
    if let [b'-', digits @ ..] = word {
        let amount = amount_of(digits)?;
        if amount == 0 {
            return None;
        }
        return Some(-(amount as i128));
    }
    let amount = amount_of(word)?;
    Some(amount as i128)
}
