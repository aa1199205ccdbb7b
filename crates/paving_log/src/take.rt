//! One line after another.

ghost use Rattle.std.specs.Prelude.{◌≡◌, ◌<◌, true, length, IfOk, IfErr, [], ◌∷◌};
ghost use Rattle.log_lines.specs.declared.line.Place.TheVariants as place;
ghost use Rattle.log_lines.specs.Order.{may_end};
ghost use Rattle.paving_log.specs.Faults.{LineFails, refusal, is_head};
ghost use Rattle.paving_log.specs.Taking.{Takes, closing_line, behind_closing};

use crate::lines::Lines;
use crate::log::LogError;
use log_lines::{ClosingLine, Fault, LogForm, LogLine, Place, line_at};
use memchr::memchr;
use step_lines::leading_step;

/// Whether the place is one of the first two lines.
fn is_first_two(place: Place) -> bool
    ensures { result ≡ is_head place }
{
    matches!(place, Place::First(_) | Place::Second(_))
}

/// How a line is refused that is no line for its place.
fn refused(place: Place, line: u32, fault: Fault) -> LogError
    ensures { result ≡ refusal place line fault }
{
    match fault {
        Fault::Word if is_first_two(place) => LogError::BadLog { line, kind: 1 },
        Fault::Word => LogError::BadLog { line, kind: 2 },
        Fault::Fields if is_first_two(place) => LogError::BadLog { line, kind: 1 },
        Fault::Fields => LogError::BadLog { line, kind: 3 },
    }
}

/// The next line, which has to fit at this place, the place behind it, and what is left.
pub fn take_line(lines: Lines<'_>, place: Place) -> Result<(LogLine, Place, Lines<'_>), LogError>
    requires { may_end place ≡ true → 0 < length lines.rest.now }
    ensures taken { IfOk result (λ t. Takes place lines.entry (t.0 ∷ []) t.1 t.2) }
    ensures fails { IfErr result (LineFails place lines.entry.rest.now lines.entry.number) }
{
    if lines.rest.is_empty() {
        return Err(LogError::BadLog {
            line: lines.number,
            kind: 4,
        });
    }
    match memchr(b'\n', lines.rest) {
        Some(end) => match line_at(place, &lines.rest[..end]) {
            Ok((line, behind)) => Ok((
                line,
                behind,
                Lines {
                    rest: &lines.rest[end + 1..],
                    number: lines.number + 1,
                },
            )),
            Err(fault) => Err(refused(place, lines.number, fault)),
        },
        None => match line_at(place, lines.rest) {
            Ok(_) => Err(LogError::BadLog {
                line: lines.number,
                kind: 4,
            }),
            Err(fault) => Err(refused(place, lines.number, fault)),
        },
    }
}

/// The next line behind the root of a log, word by word, and what is left.
fn take_closing(
    lines: Lines<'_>,
    may: LogForm,
    n: u32,
) -> Result<(ClosingLine, Lines<'_>), LogError>
    ensures taken { IfOk result
        (λ t. Takes (place.Steps may n 0) lines.entry (closing_line t.0 ∷ [])
        (behind_closing may n t.0) t.1) }
    ensures fails { IfErr result
        (LineFails (place.Steps may n 0) lines.entry.rest.now lines.entry.number) }
{
    let (line, _, left) = take_line(lines, Place::Steps(may, n, 0))?;
    match line {
        LogLine::Step(step) => Ok((ClosingLine::Step(step), left)),
        LogLine::Renew(corners) => Ok((ClosingLine::Renew(corners), left)),
        LogLine::Done(bisections) => Ok((ClosingLine::Done(bisections), left)),
        _ => unreachable!(),
    }
}

/// The next line behind the root of a log, but for those of renewed rows, which has to fit there,
/// and what is left.
pub fn take_step(
    lines: Lines<'_>,
    may: LogForm,
    n: u32,
) -> Result<(ClosingLine, Lines<'_>), LogError>
    ensures taken { IfOk result
        (λ t. Takes (place.Steps may n 0) lines.entry (closing_line t.0 ∷ [])
        (behind_closing may n t.0) t.1) }
    ensures fails { IfErr result
        (LineFails (place.Steps may n 0) lines.entry.rest.now lines.entry.number) }
{
    let Some((step, rest)) = leading_step(lines.rest) else {
        return take_closing(lines, may, n);
    };
    let left = Lines {
        rest,
        number: lines.number + 1,
    };
    Ok((ClosingLine::Step(step), left))
}
