//! Navigation files.

use crate::fields::Fields;
use crate::inputs::file;
use gnss_model::{Message, Sat};
use rinex_nav::{Nav, read_nav_of};
use std::io::{self, ErrorKind};

/// Prints what is read of a file: by `count` how many records it has, by `all` each with its
/// numbers, by `healths` each with its group delay, by `places SYSTEM NUMBER` those of a satellite.
/// Behind `fnav` or `inav` also those of Galileo by this message.
pub fn print(rt: &HostRuntime, words: Fields<'_>, fields: Fields<'_>) -> io::Result<()> {
    let mut words = words;
    let bytes = file(rt, fields)?;
    let first = words.text()?;
    let (galileo, what) = match first {
        "fnav" => (Some(Message::Fnav), words.text()?),
        "inav" => (Some(Message::Inav), words.text()?),
        _ => (None, first),
    };
    let nav = match read_nav_of(rt.alloc(), &bytes, galileo) {
        Ok(nav) => nav,
        Err(error) => return println!(rt; "{error:?}"),
    };
    match what {
        "count" => println!(rt; "{}", nav.count()),
        "all" => print_all(rt, &nav),
        "healths" => print_healths(rt, &nav),
        "places" => {
            let Some(system) = words.text()?.bytes().next() else {
                return Err(ErrorKind::InvalidInput.into());
            };
            let number = words.number()?;
            println!(rt; "{:?}", nav.places(Sat { system, number }))
        }
        _ => Err(ErrorKind::InvalidInput.into()),
    }
}

/// Prints each record, and below it its numbers or the first field that is outside its bounds.
fn print_all(rt: &HostRuntime, nav: &Nav) -> io::Result<()> {
    for place in 0..nav.count() {
        let record = nav.at(place);
        println!(rt; "{record:?}")?;
        println!(rt; "{:?}", record.elements())?;
    }
    Ok(())
}

/// Prints of each record its satellite, whether it is healthy, and its group delay.
fn print_healths(rt: &HostRuntime, nav: &Nav) -> io::Result<()> {
    for place in 0..nav.count() {
        let record = nav.at(place);
        let sat = record.sat;
        println!(rt;
            "{} {} {} {:?}",
            sat.system, sat.number, record.healthy, record.fields[19]
        )?;
    }
    Ok(())
}
