//! The numbers of the rules, and the first line of a block.

ghost use Rattle.std.specs.Prelude.{◌≡◌};
ghost use Rattle.log_tokens.specs.Words.{words_left, Reads};
ghost use Rattle.log_lines.specs.Lines.{limits_words, LimitsFit, limits_of, header_words};
ghost use Rattle.log_lines.specs.Lines.{HeaderFits};
ghost use Rattle.log_lines.specs.Order.{has_pairs};

use crate::limits::Limits;
use crate::line::Header;
use log_tokens::{Rest, count, is_ended, number, time};
use sat_model::Rules;

/// The numbers of the rules of a log.
pub fn limits(rest: Rest<'_>) -> Option<Limits>
    ensures { Reads LimitsFit limits_words (words_left rest.entry) result }
{
    let (outliers, rest) = count(rest, 0, 8)?;
    let (bisections, rest) = count(rest, 0, 200_000)?;
    let (width, rest) = number(rest, 1000, 10_000_000_000)?;
    if !is_ended(rest) {
        return None;
    }
    Some(Limits {
        outliers: outliers as u8,
        bisections,
        width,
    })
}

/// The rules that the first two lines give.
pub fn rules(version: u8, limits: Limits) -> Rules
    ensures pairs { result.pairs ≡ has_pairs version }
    ensures limits { limits_of result ≡ limits }
{
    Rules {
        outliers: limits.outliers,
        bisections: limits.bisections,
        width: limits.width,
        pairs: 2 < version,
    }
}

/// The index, the time and the number of satellites of an epoch.
pub fn header(rest: Rest<'_>) -> Option<Header>
    ensures { Reads HeaderFits header_words (words_left rest.entry) result }
{
    let (index, rest) = count(rest, 1, 200_000)?;
    let (ps, rest) = time(rest)?;
    let (n, rest) = count(rest, 0, 64)?;
    if !is_ended(rest) {
        return None;
    }
    Some(Header { index, ps, n })
}
