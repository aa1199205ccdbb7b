//! The lines of a bound, read.

ghost use Rattle.std.specs.Prelude.{◌≡◌, ◌↔◌, Some};
ghost use Rattle.bound_lines.specs.BoundLines.{bound_text, sum_text};
ghost use Rattle.bound_lines.specs.declared.bound_head.BoundHead.{BoundHead};
ghost use Rattle.sat_model.specs.declared.row_sums.RowSum.{RowSum};

use crate::bound_head::BoundHead;
use crate::fields::{bound_fields, sum_fields};
use log_tokens::word;
use sat_model::RowSum;

/// The half-space and the number of sums that this line, without its LF, is the line of.
pub fn bound_at(line: &[u8]) -> Option<BoundHead>
    ensures { (head : BoundHead) → (result ≡ Some head) ↔ (line.now ≡ bound_text head) }
{
    let (word, rest) = word(Some(line))?;
    match word {
        b"bound" => bound_fields(rest),
        _ => None,
    }
}

/// The sum of rows that this line, without its LF, is the line of.
pub fn sum_at(line: &[u8]) -> Option<RowSum>
    ensures { (sum : RowSum) → (result ≡ Some sum) ↔ (line.now ≡ sum_text sum) }
{
    let (word, rest) = word(Some(line))?;
    match word {
        b"by" => sum_fields(rest),
        _ => None,
    }
}
