//! The text of a field.

ghost use Rattle.std.specs.Prelude.{◌≡◌, ◌++◌, ◌+◌, ◌%◌, [], ◌∷◌, IfOk};
ghost use Rattle.made_texts.specs.Fields.{minus_or, field_text};

use crate::field_number::FieldNumber;
use decimal_digits::push_digits;
use grid_model::NoMemory;

/// The last digit of a number.
fn push_digit(text: &mut Vec<u8>, number: u64) -> Result<(), NoMemory>
    ensures { IfOk result (λ _. text.new.items ≡ text.old.items ++ (48 + number % 10) ∷ []) }
{
    text.push(b'0' + (number % 10) as u8)?;
    Ok(())
}

/// A minus, or another byte.
fn minus_or(other: u8, negative: bool) -> u8
    ensures { result ≡ minus_or other negative }
{
    if negative { b'-' } else { other }
}

/// A number in 19 columns.
#[tactic(auto, unfolding(crate::specs::Fields::field_text))]
pub(crate) fn push_field(text: &mut Vec<u8>, number: &FieldNumber) -> Result<(), NoMemory>
    ensures { IfOk result (λ _. text.new.items ≡ text.old.items ++ field_text number.now) }
{
    text.push(minus_or(b' ', number.negative))?;
    push_digit(text, number.digits / 1_000_000_000_000)?;
    text.push(b'.')?;
    push_digits(text, 12, number.digits)?;
    text.push(b'D')?;
    text.push(minus_or(b'+', number.negative_power))?;
    push_digits(text, 2, u64::from(number.power))?;
    Ok(())
}
