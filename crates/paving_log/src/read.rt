//! The parts of a text, from left to right.

ghost use Rattle.std.specs.Prelude.{◌≡◌, true, false, ◌≤◌, ◌++◌, [], ◌∷◌, map, length, IfOk, IfErr};
ghost use Rattle.log_lines.specs.declared.line.LogLine.TheVariants as line;
ghost use Rattle.log_lines.specs.declared.line.Place.TheVariants as place;
ghost use Rattle.log_lines.specs.Lines.{HeaderFits};
ghost use Rattle.log_lines.specs.Order.{has_pairs, form_of, place_behind_root};
ghost use Rattle.paving_log.specs.Taking.{Takes, TakesTo, Refuses, block_place, IsOpened};
ghost use Rattle.paving_log.specs.Taking.{TakesBlocks, IsEndOf};
ghost use Rattle.log_lines.specs.Text.{head_lines, body_lines};
ghost use Rattle.log_lines.specs.Text.{BlockFits};
ghost use Rattle.paving_log.specs.Values.{block_of};

use crate::bounds::bounds;
use crate::closing_lines::{box_of, closing};
use crate::lines::{Lines, Opening};
use crate::log::{Body, LogEpoch, LogError};
use crate::take::take_line;
use log_lines::{Corners, Form, Kind, LogLine, Place, form_of, rules};
use sat_model::{Rules, SatEntry};
use std::alloc::Global;
use std::rc::Rc;

/// The first line, which gives the version.
fn version(kind: Kind, lines: Lines<'_>) -> Result<(u8, Lines<'_>), LogError>
    ensures taken { IfOk result (λ t. Takes (place.First kind) lines.entry (line.Version t.0 ∷ [])
        (place.Second (form_of kind t.0)) t.1) }
    ensures refused { IfErr result (Refuses (place.First kind) lines.entry) }
{
    let (line, _, left) = take_line(lines, Place::First(kind))?;
    match line {
        LogLine::Version(version) => Ok((version, left)),
        _ => unreachable!(),
    }
}

/// The first two lines: the version and the rules.
pub fn head(kind: Kind, lines: Lines<'_>) -> Result<(u8, Rules, Lines<'_>), LogError>
    ensures taken { IfOk result (λ t. Takes (place.First kind) lines.entry (head_lines t.0 t.1)
        (place.Between (form_of kind t.0)) t.2) }
    ensures pairs { IfOk result (λ t. t.1.pairs ≡ has_pairs t.0) }
    ensures refused { IfErr result (Refuses (place.First kind) lines.entry) }
{
    let (version, lines) = version(kind, lines)?;
    let (line, _, lines) = take_line(lines, Place::Second(form_of(kind, version)))?;
    match line {
        LogLine::Rules(limits) => Ok((version, rules(version, limits), lines)),
        _ => unreachable!(),
    }
}

/// The first line of a block, unless the text ends.
pub fn next_opening(form: Form, lines: Lines<'_>) -> Result<(Option<Opening>, Lines<'_>), LogError>
    ensures taken { IfOk result (λ t. TakesTo form (place.Between form) lines.entry [] t.0 t.1) }
    ensures refused { IfErr result (Refuses (place.Between form) lines.entry) }
{
    if lines.rest.is_empty() {
        return Ok((None, lines));
    }
    let (line, _, left) = take_line(lines, Place::Between(form))?;
    let (few, header) = match line {
        LogLine::Few(header) => (true, header),
        LogLine::Epoch(header) => (false, header),
        _ => unreachable!(),
    };
    let opening = Opening {
        few,
        header,
        line: lines.number,
    };
    Ok((Some(opening), left))
}

/// The satellite lines of an epoch, and the corners of its root behind them.
fn satellites(
    alloc: Global,
    form: Form,
    n: u32,
    lines: Lines<'_>,
) -> Result<(Vec<SatEntry>, Corners, Lines<'_>), LogError>
    ensures taken { IfOk result
        (λ t. Takes (place.Satellites form n 0) lines.entry (map line.Sat t.0.items ++ line.Root t.1
        ∷ []) (place_behind_root form n) t.2) }
    ensures at_most { IfOk result (λ t. length t.0.items ≤ 64) }
    ensures refused { IfErr result (Refuses (place.Satellites form n 0) lines.entry) }
{
    let mut sats = Vec::new(alloc);
    let mut left = lines;
    'satellites: loop {
        let (line, _, behind) = take_line(left, Place::Satellites(form, n, sats.len()))?;
        left = behind;
        match line {
            LogLine::Sat(entry) => sats.push(entry)?,
            LogLine::Root(corners) => return Ok((sats, corners, left)),
            _ => unreachable!(),
        }
    }
}

/// The satellite lines of a block of few satellites, and the first line of the next block, unless
/// the text ends.
fn few_satellites(
    alloc: Global,
    form: Form,
    lines: Lines<'_>,
) -> Result<(Vec<SatEntry>, Option<Opening>, Lines<'_>), LogError>
    ensures taken { IfOk result
        (λ t. TakesTo form (place.Few form 0) lines.entry (map line.Sat t.0.items) t.1 t.2) }
    ensures at_most { IfOk result (λ t. length t.0.items ≤ 64) }
    ensures refused { IfErr result (Refuses (place.Few form 0) lines.entry) }
{
    let mut sats = Vec::new(alloc);
    let mut left = lines;
    'satellites: while !left.rest.is_empty() {
        let number = left.number;
        let (line, _, behind) = take_line(left, Place::Few(form, sats.len()))?;
        left = behind;
        match line {
            LogLine::Sat(entry) => sats.push(entry)?,
            LogLine::Few(header) => {
                let opening = Opening {
                    few: true,
                    header,
                    line: number,
                };
                return Ok((sats, Some(opening), left));
            }
            LogLine::Epoch(header) => {
                let opening = Opening {
                    few: false,
                    header,
                    line: number,
                };
                return Ok((sats, Some(opening), left));
            }
            _ => unreachable!(),
        }
    }
    Ok((sats, None, left))
}

/// The block of an epoch, behind its first line, and the first line of the next block, unless the
/// text ends.
fn paved_block<'a>(
    alloc: Global,
    text: &Rc<Vec<u8>>,
    form: Form,
    opening: Opening,
    lines: Lines<'a>,
) -> Result<(LogEpoch, Option<Opening>, Lines<'a>), LogError>
    requires whole { IsEndOf lines.rest.now text.now.value.items }
    requires paved { opening.few ≡ false }
    requires header { HeaderFits opening.header }
    ensures taken { IfOk result
        (λ t. TakesTo form (place.Satellites form opening.header.n 0) lines.entry
        (body_lines form (block_of t.0)) t.1 t.2) }
    ensures opened { IfOk result (λ t. IsOpened opening (block_of t.0)) }
    ensures fits { IfOk result (λ t. BlockFits form (block_of t.0)) }
    ensures refused { IfErr result
        (Refuses (place.Satellites form opening.header.n 0) lines.entry) }
{
    let (mut sats, corners, left) = satellites(alloc, form, opening.header.n, lines)?;
    let (events, done, left) = closing(alloc, text, form, opening.header.n, left)?;
    let (mut bounds, next, left) = bounds(alloc, form, left)?;
    sats.shrink_to_fit();
    bounds.shrink_to_fit();
    let body = Body {
        root: box_of(corners),
        steps: events.steps,
        renewals: events.renewals,
        done,
        bounds,
    };
    let epoch = LogEpoch {
        line: opening.line,
        index: opening.header.index,
        ps: opening.header.ps,
        n: opening.header.n,
        sats,
        body: Some(body),
    };
    Ok((epoch, next, left))
}

/// A block of few satellites behind its first line, and the first line of the next block, unless
/// the text ends.
fn few_block(
    alloc: Global,
    form: Form,
    opening: Opening,
    lines: Lines<'_>,
) -> Result<(LogEpoch, Option<Opening>, Lines<'_>), LogError>
    requires few { opening.few ≡ true }
    requires header { HeaderFits opening.header }
    ensures taken { IfOk result
        (λ t. TakesTo form (place.Few form 0) lines.entry
        (body_lines form (block_of t.0)) t.1 t.2) }
    ensures opened { IfOk result (λ t. IsOpened opening (block_of t.0)) }
    ensures fits { IfOk result (λ t. BlockFits form (block_of t.0)) }
    ensures refused { IfErr result (Refuses (place.Few form 0) lines.entry) }
{
    let (sats, next, left) = few_satellites(alloc, form, lines)?;
    let epoch = LogEpoch {
        line: opening.line,
        index: opening.header.index,
        ps: opening.header.ps,
        n: opening.header.n,
        sats,
        body: None,
    };
    Ok((epoch, next, left))
}

/// A block behind its first line, and the first line of the next block, unless the text ends.
fn block<'a>(
    alloc: Global,
    text: &Rc<Vec<u8>>,
    form: Form,
    opening: Opening,
    lines: Lines<'a>,
) -> Result<(LogEpoch, Option<Opening>, Lines<'a>), LogError>
    requires whole { IsEndOf lines.rest.now text.now.value.items }
    requires header { HeaderFits opening.header }
    ensures taken { IfOk result
        (λ t. TakesTo form (block_place form opening.few opening.header) lines.entry
        (body_lines form (block_of t.0)) t.1 t.2) }
    ensures opened { IfOk result (λ t. IsOpened opening (block_of t.0)) }
    ensures fits { IfOk result (λ t. BlockFits form (block_of t.0)) }
    ensures refused { IfErr result
        (Refuses (block_place form opening.few opening.header) lines.entry) }
{
    if opening.few {
        return few_block(alloc, form, opening, lines);
    }
    paved_block(alloc, text, form, opening, lines)
}

/// All blocks, up to the end of the text. Their steps are read from it when they are asked for.
pub fn blocks(
    alloc: Global,
    text: &Rc<Vec<u8>>,
    form: Form,
    lines: Lines<'_>,
) -> Result<Vec<LogEpoch>, LogError>
    requires { IsEndOf lines.rest.now text.now.value.items }
    ensures taken { IfOk result
        (λ epochs. TakesBlocks form lines.entry (map block_of epochs.items)) }
    ensures refused { IfErr result (Refuses (place.Between form) lines.entry) }
{
    let mut epochs = Vec::new(alloc);
    let (mut next, mut left) = next_opening(form, lines)?;
    'each: while let Some(opening) = next {
        let (epoch, after, behind) = block(alloc, text, form, opening, left)?;
        epochs.push(epoch)?;
        next = after;
        left = behind;
    }
    Ok(epochs)
}
