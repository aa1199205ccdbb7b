//! Headers, lines, columns and dates.

use crate::fields::Fields;
use crate::inputs::{bytes_of, file};
use rinex_text::{
    Body, Lines, behind_header, behind_version, column, columns, gps_ps, is_printable_text,
};
use std::io::{self, ErrorKind};

/// Prints the number of the first line behind the header of a navigation file.
pub fn print_header(rt: &HostRuntime, fields: Fields<'_>) -> io::Result<()> {
    let bytes = file(rt, fields)?;
    let behind = match behind_version(&bytes, b'N') {
        Ok(lines) => behind_header(lines),
        Err(refusal) => Err(refusal),
    };
    println!(rt; "{:?}", behind.map(|lines| lines.number))
}

/// Prints the lines of a text with their numbers, and how many are its body.
pub fn print_lines(rt: &HostRuntime, fields: Fields<'_>) -> io::Result<()> {
    let bytes = bytes_of(rt, fields)?;
    let mut lines = Lines::new(&bytes);
    println!(rt; "{}", Body::new(lines).left)?;
    for _ in 0..=bytes.len() {
        let Some(line) = lines.next() else {
            break;
        };
        println!(rt; "{line:?}")?;
    }
    Ok(())
}

/// Prints the columns `FIRST LAST` of a text, the byte in the first, and whether the text is
/// printable.
pub fn print_columns(rt: &HostRuntime, words: Fields<'_>, fields: Fields<'_>) -> io::Result<()> {
    let mut words = words;
    let (first, last) = (words.number()?, words.number()?);
    if first == 0 {
        return Err(ErrorKind::InvalidInput.into());
    }
    let bytes = bytes_of(rt, fields)?;
    println!(rt;
        "{:?} {} {}",
        columns(&bytes, first, last),
        column(&bytes, first),
        is_printable_text(&bytes)
    )
}

/// Prints the time in ps of a date: year, month, day, hour, minute and tenths of microseconds.
pub fn print_date(rt: &HostRuntime, words: Fields<'_>) -> io::Result<()> {
    let mut words = words;
    let (year, month, day) = (words.number()?, words.number()?, words.number()?);
    let (hour, minute, tenths) = (words.number()?, words.number()?, words.number()?);
    println!(rt; "{:?}", gps_ps(year, month, day, hour, minute, tenths))
}
