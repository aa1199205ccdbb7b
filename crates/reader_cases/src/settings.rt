//! Settings.

use crate::fields::Fields;
use crate::inputs::file;
use bound_directions::{Direction, Directions};
use error_bounds::{Settings, SettingsError, read_settings};
use gnss_model::Sat;
use grid_model::Pos;
use std::io;

/// The position of a header, which only some settings take as the centre of the search box.
const HEADER: Pos = Pos {
    x: 1_000_000,
    y: -2,
    z: 8_500_000_000_000,
};

/// Prints the settings of a file, or the number and the key of their first fault.
pub fn print(rt: &HostRuntime, fields: Fields<'_>) -> io::Result<()> {
    match read_settings(rt.alloc(), &file(rt, fields)?) {
        Ok(settings) => print_settings(rt, &settings),
        Err(error) => print_error(rt, &error),
    }
}

/// Prints what the settings of a file say of a station, or their first fault.
pub fn print_station(rt: &HostRuntime, fields: Fields<'_>) -> io::Result<()> {
    match read_settings(rt.alloc(), &file(rt, fields)?) {
        Ok(settings) => println!(rt; "{:?}", settings.station),
        Err(error) => print_error(rt, &error),
    }
}

/// Prints what the settings of a file say of how the receiver moves, or their first fault.
pub fn print_motion(rt: &HostRuntime, fields: Fields<'_>) -> io::Result<()> {
    match read_settings(rt.alloc(), &file(rt, fields)?) {
        Ok(settings) => println!(rt; "{:?} {}", settings.speed, settings.restart),
        Err(error) => print_error(rt, &error),
    }
}

/// Prints along which directions a log by the settings of a file has bounds, a vector a line, or the
/// first fault of the file.
pub fn print_directions(rt: &HostRuntime, fields: Fields<'_>) -> io::Result<()> {
    let settings = match read_settings(rt.alloc(), &file(rt, fields)?) {
        Ok(settings) => settings,
        Err(error) => return print_error(rt, &error),
    };
    match &settings.directions {
        Some(Directions::Azimuths(azimuths)) => println!(rt; "{azimuths:?}"),
        Some(Directions::Vectors(vectors)) => print_vectors(rt, vectors),
        None => println!(rt; "none"),
    }
}

/// Prints how many vectors there are, and each of them.
fn print_vectors(rt: &HostRuntime, vectors: &[Direction]) -> io::Result<()> {
    println!(rt; "vectors {}", vectors.len())?;
    for vector in vectors {
        println!(rt; "{vector:?}")?;
    }
    Ok(())
}

/// Prints the number and the key of a fault.
fn print_error(rt: &HostRuntime, error: &SettingsError) -> io::Result<()> {
    match error {
        SettingsError::Refused(fault) => { println!(rt; "{} {}", fault.number, fault.key.as_str()) }
        SettingsError::NoMemory => println!(rt; "no memory"),
    }
}

/// Prints settings, the search box, and what is declared for two satellites of each system.
fn print_settings(rt: &HostRuntime, settings: &Settings) -> io::Result<()> {
    println!(rt;
        "{:?} {} {} {:?}",
        settings.rules, settings.max_age, settings.renew, settings.speed
    )?;
    println!(rt; "{:?} {:?}", settings.signal, settings.galileo_use())?;
    println!(rt; "{:?} {:?}", settings.centre, settings.root(Some(HEADER)))?;
    println!(rt; "{:?}", settings.delays)?;
    for (system, number) in [(b'G', 5), (b'G', 6), (b'E', 5), (b'E', 6)] {
        println!(rt; "{:?}", settings.bound_of(Sat { system, number }))?;
    }
    Ok(())
}
