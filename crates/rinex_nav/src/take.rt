//! The lines of a navigation record, one behind another.

ghost use Rattle.std.specs.Prelude.{◌<◌, ◌≤ℤ◌, ◌<ℤ◌, pos, IfOk, IfErr, OnOk};
ghost use Rattle.rinex_nav.specs.Fields.{SourceFields, HealthFields, LastFields, AllFields};
ghost use Rattle.rinex_nav.specs.Sources.{is_inav};
ghost use Rattle.rinex_nav.specs.Records.{clock_line, further_text, further_line};
ghost use Rattle.rinex_text.specs.Reading.{Takes, Fails};

use crate::line::{clock_line, further_text, health_line, last_line, source_line, whole_line};
use exact_decimal::Decimal;
use gnss_model::{Message, Sat};
use rinex_text::{Body, Fault, Refusal};

/// What the first line of a record gives: the satellite, the clock time, and af0, af1, af2.
type Clock = (Sat, i128, (Decimal, Decimal, Decimal));

/// The first line of a record, behind so many records.
pub fn take_clock(body: Body<'_>, count: usize) -> Result<(Clock, Body<'_>), Refusal>
    ensures took { IfOk result (λ t. Takes (clock_line count) body.entry t.0 t.1) }
    ensures from { IfOk result (λ t. pos 0 ≤ℤ t.0.1) }
    ensures under { IfOk result (λ t. t.0.1 <ℤ pos 4000000000000000000000) }
    ensures few { OnOk result (count < 200000) }
    ensures failed { IfErr result (Fails (clock_line count) body.entry) }
{
    let Some((line, behind)) = body.split_first() else {
        return Err(Refusal::new(Fault::Truncated, body.lines.number));
    };
    match clock_line(line, count) {
        Ok(read) => Ok((read, behind)),
        Err(fault) => Err(Refusal::new(fault, body.lines.number)),
    }
}

/// The last three fields of the next line.
pub fn take_last(
    body: Body<'_>,
    galileo: Option<Message>,
) -> Result<((Decimal, Decimal, Decimal), Body<'_>), Refusal>
    ensures took { IfOk result (λ t. Takes (further_line galileo LastFields) body.entry t.0 t.1) }
    ensures failed { IfErr result (Fails (further_line galileo LastFields) body.entry) }
{
    let Some((line, behind)) = body.split_first() else {
        return Err(Refusal::new(Fault::Truncated, body.lines.number));
    };
    match last_line(line, galileo) {
        Ok(read) => Ok((read, behind)),
        Err(fault) => Err(Refusal::new(fault, body.lines.number)),
    }
}

/// The four fields of the next line.
pub fn take_whole(
    body: Body<'_>,
    galileo: Option<Message>,
) -> Result<((Decimal, Decimal, Decimal, Decimal), Body<'_>), Refusal>
    ensures took { IfOk result (λ t. Takes (further_line galileo AllFields) body.entry t.0 t.1) }
    ensures failed { IfErr result (Fails (further_line galileo AllFields) body.entry) }
{
    let Some((line, behind)) = body.split_first() else {
        return Err(Refusal::new(Fault::Truncated, body.lines.number));
    };
    match whole_line(line, galileo) {
        Ok(read) => Ok((read, behind)),
        Err(fault) => Err(Refusal::new(fault, body.lines.number)),
    }
}

/// The first field of the next line, and the second where the record is one of Galileo.
pub fn take_source(
    body: Body<'_>,
    galileo: Option<Message>,
    system: u8,
) -> Result<((Decimal, Decimal), Body<'_>), Refusal>
    ensures took { IfOk result
        (λ t. Takes (further_line galileo (SourceFields system)) body.entry t.0 t.1) }
    ensures failed { IfErr result (Fails (further_line galileo (SourceFields system)) body.entry) }
{
    let Some((line, behind)) = body.split_first() else {
        return Err(Refusal::new(Fault::Truncated, body.lines.number));
    };
    match source_line(line, galileo, system) {
        Ok(read) => Ok((read, behind)),
        Err(fault) => Err(Refusal::new(fault, body.lines.number)),
    }
}

/// Whether the satellite is healthy, and its group delay, by the next line.
pub fn take_health(
    body: Body<'_>,
    galileo: Option<Message>,
    system: u8,
) -> Result<((bool, Decimal), Body<'_>), Refusal>
    ensures took { IfOk result
        (λ t. Takes (further_line galileo (HealthFields (is_inav galileo system))) body.entry t.0
        t.1) }
    ensures failed { IfErr result
        (Fails (further_line galileo (HealthFields (is_inav galileo system))) body.entry) }
{
    let Some((line, behind)) = body.split_first() else {
        return Err(Refusal::new(Fault::Truncated, body.lines.number));
    };
    match health_line(line, galileo, system) {
        Ok(read) => Ok((read, behind)),
        Err(fault) => Err(Refusal::new(fault, body.lines.number)),
    }
}

/// The next line, of which no field is read.
pub fn take_unread(body: Body<'_>, galileo: Option<Message>) -> Result<((), Body<'_>), Refusal>
    ensures took { IfOk result (λ t. Takes (further_text galileo) body.entry t.0 t.1) }
    ensures failed { IfErr result (Fails (further_text galileo) body.entry) }
{
    let Some((line, behind)) = body.split_first() else {
        return Err(Refusal::new(Fault::Truncated, body.lines.number));
    };
    match further_text(line, galileo) {
        Ok(read) => Ok((read, behind)),
        Err(fault) => Err(Refusal::new(fault, body.lines.number)),
    }
}
