//! The satellite lines and the roots of a log.

ghost use Rattle.std.specs.Prelude.{◌≡◌, false};
ghost use Rattle.grid_model.specs.Sizes.{IsErrorSize};
ghost use Rattle.gnss_model.specs.declared.satellites.Skip.{Skip};
ghost use Rattle.log_lines.specs.declared.line.LineName.TheVariants as names;
ghost use Rattle.log_tokens.specs.Words.{words_left, Reads};
ghost use Rattle.log_lines.specs.Rows.{are_ends, sure_words, AreSure, row_words, RowFits};
ghost use Rattle.log_lines.specs.Rows.{entry_words, EntryFits, root_words, CornersFit};
ghost use Rattle.log_lines.specs.Lines.{entry_name};

use crate::line::Corners;
use grid_model::Span;
use log_tokens::{Rest, amount, is_ended, place, satellite, skip, span};
use sat_model::{Row, SatEntry};

/// The greatest amount of a satellite's coordinate and of a range, in um.
const GREATEST_PLACE: u64 = 60_000_000_000_000;
/// The greatest amount of an error, in um.
const GREATEST_ERROR: u64 = 1_000_000_000_000;
/// The greatest amount of a coordinate of a box, in um.
const GREATEST_SIDE: u64 = 10_000_000_000_000;

/// Whether the numbers are the ends of the span.
pub fn has_ends(span: &Span, lo: i64, hi: i64) -> bool
    ensures { result ≡ are_ends span.now lo hi }
{
    lo == span.lo && hi == span.hi
}

/// The greatest low and the least high end of what is allowed of an error, where they aren't the
/// ends of `err` and so are written.
fn told_ends(rest: Rest<'_>, err: &Span) -> Option<(i64, i64)>
    ensures { Reads (λ ends. AreSure err.now ends.0 ends.1
        × (are_ends err.now ends.0 ends.1 ≡ false))
        (λ ends. sure_words err.now ends.0 ends.1) (words_left rest.entry) result }
{
    let (lo, rest) = amount(rest, GREATEST_ERROR)?;
    let (hi, rest) = amount(rest, GREATEST_ERROR)?;
    if !is_ended(rest) {
        return None;
    }
    if lo < err.lo || err.hi < hi {
        return None;
    }
    if has_ends(err, lo, hi) {
        return None;
    }
    Some((lo, hi))
}

/// The same, which are the ends of `err` where nothing is written.
fn sure_ends(rest: Rest<'_>, err: &Span) -> Option<(i64, i64)>
    requires { IsErrorSize err.now.lo × IsErrorSize err.now.hi }
    ensures { Reads (λ ends. AreSure err.now ends.0 ends.1)
        (λ ends. sure_words err.now ends.0 ends.1) (words_left rest.entry) result }
{
    if is_ended(rest) {
        return Some((err.lo, err.hi));
    }
    told_ends(rest, err)
}

/// A satellite's row.
pub fn row(rest: Rest<'_>) -> Option<Row>
    ensures { Reads RowFits row_words (words_left rest.entry) result }
{
    let (sat, rest) = satellite(rest)?;
    let (x, rest) = span(rest, GREATEST_PLACE)?;
    let (y, rest) = span(rest, GREATEST_PLACE)?;
    let (z, rest) = span(rest, GREATEST_PLACE)?;
    let (range, rest) = span(rest, GREATEST_PLACE)?;
    let (err, rest) = span(rest, GREATEST_ERROR)?;
    let (sure_lo, sure_hi) = sure_ends(rest, &err)?;
    Some(Row {
        sat,
        x,
        y,
        z,
        range,
        err,
        sure_lo,
        sure_hi,
    })
}

/// A satellite that isn't used, and why.
pub fn skipped(rest: Rest<'_>) -> Option<SatEntry>
    ensures { Reads (λ entry. EntryFits entry × (entry_name entry ≡ names.Skip)) entry_words
        (words_left rest.entry) result }
{
    let (sat, rest) = satellite(rest)?;
    let skip = skip(rest)?;
    Some(SatEntry::Skipped { sat, skip })
}

/// The corners of the root of an epoch, or of the box of a renewal.
pub fn root(rest: Rest<'_>) -> Option<Corners>
    ensures { Reads CornersFit root_words (words_left rest.entry) result }
{
    let (lo, rest) = place(rest, GREATEST_SIDE)?;
    let (hi, rest) = place(rest, GREATEST_SIDE)?;
    if !is_ended(rest) {
        return None;
    }
    if lo.x <= hi.x && lo.y <= hi.y && lo.z <= hi.z {
        Some(Corners { lo, hi })
    } else {
        None
    }
}
