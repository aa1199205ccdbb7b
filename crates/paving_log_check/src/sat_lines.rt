//! The satellite lines of a block against those that the files give.

ghost use Rattle.std.specs.Prelude.{◌≡◌, ◌+◌, ◌<◌, ◌^◌, ◌↔◌, ℕ, length, IsTrue, IfOk, MatchOption};
ghost use Rattle.std.specs.Prelude.{Some};
ghost use Rattle.sat_model.specs.Relaxed.{ends};
ghost use Rattle.grid_model.specs.Boxes.{span_side};
ghost use Rattle.sat_model.specs.Verdicts.{IsRepeat};
ghost use Rattle.sat_model.specs.declared.rows.SatEntry.TheVariants as entry;
ghost use Rattle.sat_rows.specs.OwnRows.{HasBounds};
ghost use Rattle.sat_rows.specs.declared.lines.SatLine.TheVariants.{Usable};
ghost use Rattle.paving_log_check.specs.Lines.{skipped_in, expected, IsSameLine, HoldsSide};
ghost use Rattle.paving_log_check.specs.Lines.{bounds_compared, compared, HoldEach, IsFirstNarrow};
ghost use Rattle.paving_log_check.specs.Lines.{HoldsOwn, HasBound, RowPasses, RowFails, LinePasses};
ghost use Rattle.paving_log_check.specs.Lines.{LineFails, SatsPass, SatsFail};

use crate::faults::{BOUND_DIFFERS, ROW_NARROW, plain_fault};
use crate::verdict::Fault;
use gnss_model::Delays;
use grid_model::Span;
use paving_log::{SATELLITE_DIFFERS, first_repeat};
use sat_model::{Row, SatEntry};
use sat_rows::SatLine;
use std::alloc::{AllocError, Global};

/// The lines of the satellites that aren't used.
fn skipped_among(alloc: Global, lines: &[SatLine]) -> Result<Vec<SatLine>, AllocError>
    ensures { IfOk result (λ skipped. skipped.items ≡ skipped_in lines.now) }
{
    let mut skipped = Vec::new(alloc);
    for line in lines {
        match line {
            SatLine::Usable(_) => {}
            SatLine::Skipped { .. } => skipped.push(*line)?,
        }
    }
    Ok(skipped)
}

/// The lines that a block of few satellites, or another one, is to have.
pub(crate) fn expected_lines(
    alloc: Global,
    few: bool,
    own: &Vec<SatLine>,
) -> Result<Vec<SatLine>, AllocError>
    ensures { IfOk result (λ lines. lines.items ≡ expected few own.now.items) }
{
    if few {
        skipped_among(alloc, own)
    } else {
        own.clone()
    }
}

/// Whether a span holds another.
fn holds_span(theirs: &Span, ours: &Span) -> bool
    ensures { IsTrue result ↔ HoldsSide (span_side theirs.now) (span_side ours.now) }
{
    theirs.lo <= ours.lo && ours.hi <= theirs.hi
}

/// The first span of the row's error bounds that doesn't hold that of the own row, and the latter.
/// They are compared only where a delay is mapped.
fn first_narrow_bounds(delays: Delays, row: &Row, ours: &Row) -> Option<(Span, Span)>
    ensures { MatchOption result (HoldEach (bounds_compared delays row.now ours.now))
        (λ spans. IsFirstNarrow (bounds_compared delays row.now ours.now)
        (span_side spans.0) (span_side spans.1)) }
{
    if delays.is_plain() {
        return None;
    }
    let low = row.low_bounds();
    let own_low = ours.low_bounds();
    if !holds_span(&low, &own_low) {
        return Some((low, own_low));
    }
    let high = row.high_bounds();
    let own_high = ours.high_bounds();
    if !holds_span(&high, &own_high) {
        return Some((high, own_high));
    }
    None
}

/// The first of all spans of the row that doesn't hold that of the own row, and the latter.
fn first_narrow(delays: Delays, row: &Row, ours: &Row) -> Option<(Span, Span)>
    ensures { MatchOption result (HoldsOwn delays row.now ours.now)
        (λ spans. IsFirstNarrow (compared delays row.now ours.now)
        (span_side spans.0) (span_side spans.1)) }
{
    if !holds_span(&row.x, &ours.x) {
        return Some((row.x, ours.x));
    }
    if !holds_span(&row.y, &ours.y) {
        return Some((row.y, ours.y));
    }
    if !holds_span(&row.z, &ours.z) {
        return Some((row.z, ours.z));
    }
    if !holds_span(&row.range, &ours.range) {
        return Some((row.range, ours.range));
    }
    first_narrow_bounds(delays, row, ours)
}

/// Whether the ends of the row's error are those of this span alone.
fn has_declared_ends(row: &Row, declared: &Span) -> bool
    ensures { IsTrue result ↔ HasBounds row.now (ends declared.now) }
{
    row.err.lo == declared.lo
        && row.err.hi == declared.hi
        && row.sure_lo == declared.lo
        && row.sure_hi == declared.hi
}

/// Whether the ends of the row's error are the declared ones, as they are in the own row. Where a
/// delay is mapped they may be others.
fn has_bound(delays: Delays, row: &Row, ours: &Row) -> bool
    ensures { IsTrue result ↔ HasBound delays row.now ours.now }
{
    if delays.is_plain() {
        return has_declared_ends(row, &ours.err);
    }
    true
}

/// Whether both lines have the same word, satellite and skip.
fn is_same_line(theirs: &SatEntry, ours: &SatLine) -> bool
    ensures { IsTrue result ↔ IsSameLine theirs.now ours.now }
{
    match theirs {
        SatEntry::Row(row) => match ours {
            SatLine::Usable(own) => row.sat == own.sat,
            SatLine::Skipped { .. } => false,
        },
        SatEntry::Skipped { sat, skip } => match ours {
            SatLine::Usable(_) => false,
            SatLine::Skipped {
                sat: other,
                skip: why,
            } => *sat == *other && *skip == *why,
        },
    }
}

/// The least test that a row fails against the own one.
pub(crate) fn rows_fault(line: u32, delays: Delays, row: &Row, ours: &Row) -> Option<Fault>
    ensures { MatchOption result
        (HoldsOwn delays row.now ours.now × HasBound delays row.now ours.now)
        (λ fault. RowFails delays (entry.Row row.now) (Usable ours.now) fault
        × (fault.line ≡ line)) }
{
    if let Some((theirs, own)) = first_narrow(delays, row, ours) {
        return Some(Fault {
            number: ROW_NARROW,
            line,
            theirs,
            ours: own,
        });
    }
    if !has_bound(delays, row, ours) {
        return Some(plain_fault(line, BOUND_DIFFERS));
    }
    None
}

/// The least test that the rows of both lines fail, where both have one.
fn row_fault(line: u32, delays: Delays, theirs: &SatEntry, ours: &SatLine) -> Option<Fault>
    ensures { MatchOption result (RowPasses delays theirs.now ours.now)
        (λ fault. RowFails delays theirs.now ours.now fault × (fault.line ≡ line)) }
{
    match theirs {
        SatEntry::Row(row) => match ours {
            SatLine::Usable(own) => rows_fault(line, delays, row, own),
            SatLine::Skipped { .. } => None,
        },
        SatEntry::Skipped { .. } => None,
    }
}

/// The least test that satellite line `k` fails, whose number is `line`.
fn line_fault(
    line: u32,
    delays: Delays,
    sats: &[SatEntry],
    lines: &[SatLine],
    k: usize,
    repeats: bool,
) -> Option<Fault>
    requires is_line { k < length sats.now }
    requires repeats { IsTrue repeats ↔ IsRepeat sats.now k }
    ensures { MatchOption result (LinePasses delays sats.now lines.now k)
        (λ fault. LineFails delays sats.now lines.now k fault × (fault.line ≡ line)) }
{
    if repeats || lines.len() <= k || !is_same_line(&sats[k], &lines[k]) {
        return Some(plain_fault(line, SATELLITE_DIFFERS));
    }
    row_fault(line, delays, &sats[k], &lines[k])
}

/// Whether the place that was found is this one.
fn is_at(found: Option<usize>, k: usize) -> bool
    ensures { IsTrue result ↔ (found ≡ Some k) }
{
    match found {
        Some(place) => place == k,
        None => false,
    }
}

/// The first satellite line that fails a test, and the least one, where `line` is the number of the
/// first of them.
pub(crate) fn sats_fault(
    line: u32,
    delays: Delays,
    sats: &[SatEntry],
    lines: &[SatLine],
) -> Option<Fault>
    requires { line + length sats.now < 2 ^ 32 }
    ensures { MatchOption result (SatsPass delays sats.now lines.now)
        (λ fault. (k : ℕ) × SatsFail delays sats.now lines.now k fault
        × (fault.line ≡ line + k)) }
{
    let first = first_repeat(sats);
    for k in 0..sats.len() {
        let repeats = is_at(first, k);
        if let Some(fault) = line_fault(line + k as u32, delays, sats, lines, k, repeats) {
            return Some(fault);
        }
    }
    None
}
