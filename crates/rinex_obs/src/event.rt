//! The lines of an event.

ghost use Rattle.std.specs.Prelude.{◌≡◌, ◌↔◌, IsTrue, IfOk, IfErr, Ok, Err, codes};
ghost use Rattle.rinex_text.specs.Columns.{label_of};
ghost use Rattle.rinex_text.specs.Reading.{plain_line, body_behind, Takes, Fails, Leaves};
ghost use Rattle.rinex_obs.specs.Types.{IsOfRead};
ghost use Rattle.rinex_obs.specs.Epochs.{event_line, event_from};

use crate::types::is_read;
use rinex_text::{Body, Fault, Line, Refusal, column, is_labelled, is_short};

/// Whether the line scales the observations of a system that is read.
fn scales_read(text: &[u8], both: bool) -> bool
    ensures { IsTrue result ↔ ((label_of text.now ≡ codes "SYS / SCALE FACTOR")
        × IsOfRead both text.now) }
{
    is_labelled(text, b"SYS / SCALE FACTOR") && is_read(column(text, 1), both)
}

/// The tests of a line of an event.
fn event_line(line: Line<'_>, both: bool, labelled: bool) -> Result<(), Fault>
    ensures { event_line both labelled (plain_line line.entry) result }
{
    if !is_short(line) {
        return Err(Fault::LongLine);
    }
    if !labelled {
        return Ok(());
    }
    if scales_read(line.text, both) {
        return Err(Fault::ScaleFactor);
    }
    if is_labelled(line.text, b"SYS / # / OBS TYPES") {
        return Err(Fault::HeaderChange);
    }
    Ok(())
}

/// The next line of an event.
fn take_event_line(body: Body<'_>, both: bool, labelled: bool) -> Result<((), Body<'_>), Refusal>
    ensures took { IfOk result (λ t. Takes (event_line both labelled) body.entry t.0 t.1) }
    ensures failed { IfErr result (Fails (event_line both labelled) body.entry) }
{
    let Some((line, behind)) = body.split_first() else {
        return Err(Refusal::new(Fault::Truncated, body.lines.number));
    };
    match event_line(line, both, labelled) {
        Ok(read) => Ok((read, behind)),
        Err(fault) => Err(Refusal::new(fault, body.lines.number)),
    }
}

/// The body behind so many lines of an event.
pub fn take_event(
    body: Body<'_>,
    both: bool,
    labelled: bool,
    lines: u16,
) -> Result<Body<'_>, Refusal>
    ensures event { IfOk result
        (λ t. event_from both labelled lines (body_behind body.entry) (Ok tt)) }
    ensures left { IfOk result (Leaves body.entry lines) }
    ensures fault { IfErr result
        (λ e. event_from both labelled lines (body_behind body.entry) (Err e)) }
{
    let mut left = body;
    let mut missing = lines;
    'lines: while missing > 0 {
        let ((), behind) = take_event_line(left, both, labelled)?;
        missing -= 1;
        left = behind;
    }
    Ok(left)
}
