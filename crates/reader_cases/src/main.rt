//! The readers of receivers' files, on the cases of standard input: one a line, `WHAT|FIELD|FIELD..`.
//! Each line is printed, and below it what came of it; a line that begins with `#` is a heading. A
//! line that is no case ends the program.
#![tactic(auto)]

mod ephemerides;
mod fields;
mod inputs;
mod observations;
mod records;
mod settings;
mod texts;

use fields::Fields;
use std::io::{self, ErrorKind};

fn main(rt: HostRuntime) -> io::Result<()> {
    for line in rt.lines(rt.alloc()) {
        let line = line?;
        println!(rt; "{line}")?;
        if !line.starts_with('#') {
            answer(&rt, line.as_str())?;
        }
    }
    Ok(())
}

/// Prints what comes of a case.
fn answer(rt: &HostRuntime, case: &str) -> io::Result<()> {
    let (what, rest) = case.split_once('|').unwrap_or((case, ""));
    let mut words = Fields::between(what, ' ');
    let fields = Fields::between(rest, '|');
    match words.text()? {
        "observations" => observations::print(rt, words, fields),
        "records" => records::print(rt, words, fields),
        "ephemeris" => ephemerides::print(rt, words, fields),
        "settings" => settings::print(rt, fields),
        "station" => settings::print_station(rt, fields),
        "motion" => settings::print_motion(rt, fields),
        "directions" => settings::print_directions(rt, fields),
        "header" => texts::print_header(rt, fields),
        "lines" => texts::print_lines(rt, fields),
        "columns" => texts::print_columns(rt, words, fields),
        "date" => texts::print_date(rt, words),
        _ => Err(ErrorKind::InvalidInput.into()),
    }
}
