//! Observation files.

use crate::fields::Fields;
use crate::inputs::file;
use gnss_model::Signal;
use rinex_obs::{Sought, read_obs, read_obs_between, read_obs_both, read_station};
use std::io::{self, ErrorKind};

const SINGLE: Signal = Signal::Single { code: *b"C1C" };

const DUAL: Signal = Signal::Dual {
    first: *b"C1C",
    second: *b"C2W",
};

const GALILEO: Signal = Signal::Dual {
    first: *b"C1X",
    second: *b"C5X",
};

/// Prints the observations of a file: of GPS satellites by `single`, C1C, or `dual`, C1C and C2W; by
/// `both` also those of Galileo satellites, C1X and C5X; by `position` C1C and the position of the
/// header; by `between FROM TO` C1C of the epochs with these numbers; by `station` C1C of a station.
pub fn print(rt: &HostRuntime, words: Fields<'_>, fields: Fields<'_>) -> io::Result<()> {
    let mut words = words;
    let alloc = rt.alloc();
    let bytes = file(rt, fields)?;
    match words.text()? {
        "single" => println!(rt; "{:?}", read_obs(alloc, &bytes, &SINGLE, false)),
        "dual" => println!(rt; "{:?}", read_obs(alloc, &bytes, &DUAL, false)),
        "both" => {
            println!(rt;
                "{:?}",
                read_obs_both(alloc, &bytes, &DUAL, &GALILEO, false)
            )
        }
        "position" => println!(rt; "{:?}", read_obs(alloc, &bytes, &SINGLE, true)),
        "between" => {
            let (from, to) = (words.number()?, words.number()?);
            let sought = Sought::alone(SINGLE);
            println!(rt;
                "{:?}",
                read_obs_between(alloc, &bytes, &sought, false, from, to)
            )
        }
        "station" => {
            let sought = Sought::alone(SINGLE);
            println!(rt; "{:?}", read_station(alloc, &bytes, &sought, false))
        }
        _ => Err(ErrorKind::InvalidInput.into()),
    }
}
