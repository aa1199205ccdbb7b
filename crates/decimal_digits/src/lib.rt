//! Decimal digits of a number as text, in so many columns, leading zeros included.
#![tactic(auto)]

ghost use Rattle.std.specs.Prelude.{◌≡◌, ◌≤◌, ◌++◌, IfOk};
ghost use Rattle.decimal_digits.specs.Digits.{last_digits};

use grid_model::NoMemory;

/// Appends the last `count` digits of the number.
pub fn push_digits(text: &mut Vec<u8>, count: u32, number: u64) -> Result<(), NoMemory>
    requires { count ≤ 18 }
    ensures { IfOk result (λ _. text.new.items ≡ text.old.items ++ last_digits count number) }
{
    if count == 0 {
        return Ok(());
    }
    let power = 10_u64.pow(count - 1);
    text.push(b'0' + (number / power % 10) as u8)?;
    push_digits(text, count - 1, number)?;
    Ok(())
}
