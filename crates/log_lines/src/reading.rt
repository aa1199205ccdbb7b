//! One line at its place.

ghost use Rattle.std.specs.Prelude.{◌≡◌, IfOk, IfErr};
ghost use Rattle.log_tokens.specs.Words.{words_left, Reads};
ghost use Rattle.log_lines.specs.Lines.{LineFits, name_of, fields};
ghost use Rattle.log_lines.specs.Fitting.{FitsAt, Misfit};

use crate::header::{header, limits};
use crate::line::{Fault, LineName, LogLine, Place};
use crate::order::{may_come, name_from, place_behind};
use crate::rows::{root, row, skipped};
use bound_lines::{bound_fields, sum_fields};
use log_tokens::{Rest, count, is_ended, word};
use sat_model::SatEntry;
use step_lines::step_fields;

/// The one field of the first line.
fn version(rest: Rest<'_>) -> Option<LogLine>
    ensures { Reads (λ l. LineFits l × (name_of l ≡ LineName.Gpscover)) fields
        (words_left rest.entry) result }
{
    let (version, rest) = count(rest, 1, 4)?;
    if !is_ended(rest) {
        return None;
    }
    Some(LogLine::Version(version as u8))
}

/// The number of splits.
fn done(rest: Rest<'_>) -> Option<LogLine>
    ensures { Reads (λ l. LineFits l × (name_of l ≡ LineName.Done)) fields
        (words_left rest.entry) result }
{
    let (bisections, rest) = count(rest, 0, 200_000)?;
    if !is_ended(rest) {
        return None;
    }
    Some(LogLine::Done(bisections))
}

/// The half-space of a bound, and the number of its sums.
fn bound(rest: Rest<'_>) -> Option<LogLine>
    ensures { Reads (λ l. LineFits l × (name_of l ≡ LineName.Bound)) fields
        (words_left rest.entry) result }
{
    let head = bound_fields(rest)?;
    Some(LogLine::Bound(head.half, head.sums))
}

/// The line whose first word is the name and whose other words are left.
fn fields_of(name: LineName, rest: Rest<'_>) -> Option<LogLine>
    ensures { Reads (λ l. LineFits l × (name_of l ≡ name)) fields (words_left rest.entry) result }
{
    match name {
        LineName::Gpscover => version(rest),
        LineName::Rules => Some(LogLine::Rules(limits(rest)?)),
        LineName::Few => Some(LogLine::Few(header(rest)?)),
        LineName::Epoch => Some(LogLine::Epoch(header(rest)?)),
        LineName::Sat => Some(LogLine::Sat(SatEntry::Row(row(rest)?))),
        LineName::Skip => Some(LogLine::Sat(skipped(rest)?)),
        LineName::Root => Some(LogLine::Root(root(rest)?)),
        LineName::Step(name) => Some(LogLine::Step(step_fields(name, rest)?)),
        LineName::Renew => Some(LogLine::Renew(root(rest)?)),
        LineName::Done => done(rest),
        LineName::Bound => bound(rest),
        LineName::By => Some(LogLine::By(sum_fields(rest)?)),
    }
}

/// The line, where it fits at this place, and the place behind it.
pub fn line_at(place: Place, here: &[u8]) -> Result<(LogLine, Place), Fault>
    ensures fits { IfOk result (λ found. FitsAt place here.now found.0 found.1) }
    ensures misfit { IfErr result (λ fault. Misfit place here.now fault) }
{
    let Some((word, rest)) = word(Some(here)) else {
        return Err(Fault::Word);
    };
    let Some(name) = name_from(word) else {
        return Err(Fault::Word);
    };
    if !may_come(place, name) {
        return Err(Fault::Word);
    }
    let Some(line) = fields_of(name, rest) else {
        return Err(Fault::Fields);
    };
    match place_behind(place, &line) {
        Some(after) => Ok((line, after)),
        None => Err(Fault::Fields),
    }
}
