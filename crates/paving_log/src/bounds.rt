//! The bounds behind the splits of an epoch.

ghost use Rattle.std.specs.Prelude.{◌≡◌, true, map, length, IfOk, IfErr};
ghost use Rattle.std.specs.List.{flat_map};
ghost use Rattle.log_lines.specs.declared.line.Form.TheVariants as forms;
ghost use Rattle.log_lines.specs.declared.line.LogLine.TheVariants as line;
ghost use Rattle.log_lines.specs.declared.line.Place.TheVariants as place;
ghost use Rattle.log_lines.specs.Text.{bound_lines, BoundsFit};
ghost use Rattle.paving_log.specs.Taking.{Takes, TakesTo, Refuses, bounds_lines, AllBoundsFit};
ghost use Rattle.paving_log.specs.Taking.{place_behind_steps};
ghost use Rattle.paving_log.specs.Values.{bound_value};

use crate::lines::{Lines, Opening};
use crate::log::{Bound, LogError};
use crate::read::next_opening;
use crate::take::take_line;
use log_lines::{Form, LogForm, LogLine, Place};
use sat_model::RowSum;
use std::alloc::Global;

/// The sums of a bound, behind the line of its half-space.
fn sums(
    alloc: Global,
    form: LogForm,
    n: u32,
    lines: Lines<'_>,
) -> Result<(Vec<RowSum>, Lines<'_>), LogError>
    ensures taken { IfOk result
        (λ t. Takes (place.Bounds form n) lines.entry (map line.By t.0.items)
        (place.Bounds form 0) t.1) }
    ensures many { IfOk result (λ t. length t.0.items ≡ n) }
    ensures refused { IfErr result (Refuses (place.Bounds form n) lines.entry) }
{
    let mut sums = Vec::new(alloc);
    let mut behind = lines;
    let mut left = n;
    'sums: while 0 < left {
        let (line, _, after) = take_line(behind, Place::Bounds(form, left))?;
        behind = after;
        match line {
            LogLine::By(sum) => sums.push(sum)?,
            _ => unreachable!(),
        }
        left -= 1;
    }
    sums.shrink_to_fit();
    Ok((sums, behind))
}

/// The bounds of an epoch where there may be some, and the first line of the next block, unless the
/// text ends.
fn listed(
    alloc: Global,
    form: LogForm,
    lines: Lines<'_>,
) -> Result<(Vec<Bound>, Option<Opening>, Lines<'_>), LogError>
    ensures taken { IfOk result
        (λ t. TakesTo (forms.Log form) (place.Bounds form 0) lines.entry
        (flat_map bound_lines (map bound_value t.0.items)) t.1 t.2) }
    ensures fits { IfOk result (λ t. BoundsFit true (map bound_value t.0.items)) }
    ensures refused { IfErr result (Refuses (place.Bounds form 0) lines.entry) }
{
    let mut bounds = Vec::new(alloc);
    let mut left = lines;
    'bounds: while !left.rest.is_empty() {
        let number = left.number;
        let (line, _, behind) = take_line(left, Place::Bounds(form, 0))?;
        match line {
            LogLine::Bound(half, count) => {
                let (sums, behind) = sums(alloc, form, u32::from(count), behind)?;
                bounds.push(Bound { half, sums })?;
                left = behind;
            }
            LogLine::Few(header) => {
                let opening = Opening {
                    few: true,
                    header,
                    line: number,
                };
                return Ok((bounds, Some(opening), behind));
            }
            LogLine::Epoch(header) => {
                let opening = Opening {
                    few: false,
                    header,
                    line: number,
                };
                return Ok((bounds, Some(opening), behind));
            }
            _ => unreachable!(),
        }
    }
    Ok((bounds, None, left))
}

/// What stands between the splits of an epoch and the next block: its bounds, where there may be
/// some, and the first line of that block, unless the text ends.
pub fn bounds(
    alloc: Global,
    form: Form,
    lines: Lines<'_>,
) -> Result<(Vec<Bound>, Option<Opening>, Lines<'_>), LogError>
    ensures taken { IfOk result
        (λ t. TakesTo form (place_behind_steps form) lines.entry
        (bounds_lines form (map bound_value t.0.items)) t.1 t.2) }
    ensures fits { IfOk result (λ t. AllBoundsFit form (map bound_value t.0.items)) }
    ensures refused { IfErr result (Refuses (place_behind_steps form) lines.entry) }
{
    match form {
        Form::Log(form) if form.bounds => listed(alloc, form, lines),
        Form::Log(_) | Form::Rows => {
            let (next, left) = next_opening(form, lines)?;
            Ok((Vec::new(alloc), next, left))
        }
    }
}
