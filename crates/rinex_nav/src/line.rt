//! The lines of a navigation record.

ghost use Rattle.std.specs.Prelude.{◌≡◌, ◌↔◌, ◌<◌, ◌<ℤ◌, ◌≤ℤ◌, pos, IfOk, OnOk, IsTrue};
ghost use Rattle.rinex_text.specs.Reading.{plain_line};
ghost use Rattle.rinex_nav.specs.Fields.{SourceFields, HealthFields, LastFields, AllFields};
ghost use Rattle.rinex_nav.specs.Sources.{is_inav};
ghost use Rattle.rinex_nav.specs.Records.{is_read, MayFollow, clock_line, further_text};
ghost use Rattle.rinex_nav.specs.Records.{further_line};

use crate::field::{all_fields, clock_time, health_fields, last_fields, source_fields};
use exact_decimal::Decimal;
use gnss_model::{Message, Sat};
use rinex_text::{
    Fault, Line, column, is_blank_byte, is_printable_text, is_short, satellite_number,
};

/// The most records of a file.
const MOST_RECORDS: usize = 200_000;

/// The satellite, the clock time and the clock's coefficients on the first line of a
/// record, behind so many records.
pub fn clock_line(
    line: Line<'_>,
    count: usize,
) -> Result<(Sat, i128, (Decimal, Decimal, Decimal)), Fault>
    ensures line { clock_line count (plain_line line.entry) result }
    ensures from { IfOk result (λ clock. pos 0 ≤ℤ clock.1) }
    ensures under { IfOk result (λ clock. clock.1 <ℤ pos 4000000000000000000000) }
    ensures few { OnOk result (count < 200000) }
{
    if !is_short(line) {
        return Err(Fault::LongLine);
    }
    if !is_printable_text(line.text) {
        return Err(Fault::NotAscii);
    }
    let Some(number) = satellite_number(line.text) else {
        return Err(Fault::BadSatellite);
    };
    if count >= MOST_RECORDS {
        return Err(Fault::TooMany);
    }
    let Some(toc) = clock_time(line.text) else {
        return Err(Fault::BadEpoch);
    };
    let Some(clock) = last_fields(line.text) else {
        return Err(Fault::BadNumber);
    };
    let sat = Sat {
        system: column(line.text, 1),
        number,
    };
    Ok((sat, toc, clock))
}

/// Whether the letter begins a record that is read: `G`, or one of `G` and `E` where the records of
/// a message of `galileo` are wanted too.
pub fn is_read(letter: u8, galileo: Option<Message>) -> bool
    ensures { result ≡ is_read galileo letter }
{
    letter == b'G' || (galileo.is_some() && letter == b'E')
}

/// Whether the byte is a blank or begins a record that is read.
fn may_follow(byte: u8, galileo: Option<Message>) -> bool
    ensures { IsTrue result ↔ MayFollow galileo byte }
{
    is_blank_byte(byte) || is_read(byte, galileo)
}

/// The tests of a further line of a record, before its fields.
pub fn further_text(line: Line<'_>, galileo: Option<Message>) -> Result<(), Fault>
    ensures { further_text galileo (plain_line line.entry) result }
{
    if !is_short(line) {
        return Err(Fault::LongLine);
    }
    if !may_follow(column(line.text, 1), galileo) {
        return Err(Fault::Truncated);
    }
    if !is_printable_text(line.text) {
        return Err(Fault::NotAscii);
    }
    if !is_blank_byte(column(line.text, 1)) {
        return Err(Fault::Truncated);
    }
    Ok(())
}

/// The first field of a further line, and the second where the record is one of Galileo.
pub fn source_line(
    line: Line<'_>,
    galileo: Option<Message>,
    system: u8,
) -> Result<(Decimal, Decimal), Fault>
    ensures { further_line galileo (SourceFields system) (plain_line line.entry) result }
{
    match further_text(line, galileo) {
        Ok(()) => match source_fields(line.text, system) {
            Some(read) => Ok(read),
            None => Err(Fault::BadNumber),
        },
        Err(fault) => Err(fault),
    }
}

/// Whether the satellite is healthy, and its group delay, by a further line.
pub fn health_line(
    line: Line<'_>,
    galileo: Option<Message>,
    system: u8,
) -> Result<(bool, Decimal), Fault>
    ensures { further_line galileo (HealthFields (is_inav galileo system)) (plain_line line.entry)
        result }
{
    match further_text(line, galileo) {
        Ok(()) => match health_fields(line.text, galileo, system) {
            Some(read) => Ok(read),
            None => Err(Fault::BadNumber),
        },
        Err(fault) => Err(fault),
    }
}

/// The last three fields of a further line.
pub fn last_line(
    line: Line<'_>,
    galileo: Option<Message>,
) -> Result<(Decimal, Decimal, Decimal), Fault>
    ensures { further_line galileo LastFields (plain_line line.entry) result }
{
    match further_text(line, galileo) {
        Ok(()) => match last_fields(line.text) {
            Some(read) => Ok(read),
            None => Err(Fault::BadNumber),
        },
        Err(fault) => Err(fault),
    }
}

/// The four fields of a further line.
pub fn whole_line(
    line: Line<'_>,
    galileo: Option<Message>,
) -> Result<(Decimal, Decimal, Decimal, Decimal), Fault>
    ensures { further_line galileo AllFields (plain_line line.entry) result }
{
    match further_text(line, galileo) {
        Ok(()) => match all_fields(line.text) {
            Some(read) => Ok(read),
            None => Err(Fault::BadNumber),
        },
        Err(fault) => Err(fault),
    }
}
