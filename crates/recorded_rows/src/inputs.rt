//! The files that are compared.

ghost use Rattle.std.specs.Prelude.{◌≤◌, length, IfOk};

use error_bounds::{Centre, Settings, read_settings};
use grid_model::Pos;
use outer_io::{Shelf, Slot, read_all};
use paving_log::{Log, read_rows};
use rinex_nav::{Nav, read_nav};
use rinex_obs::{Obs, read_obs};
use std::alloc::Global;
use std::rc::Rc;

/// A file may have so many bytes.
const LIMIT: u64 = 268_435_456;

/// A receiver's observations, the satellites' records, the settings, and the rows of another
/// program.
#[derive(Drop)]
pub struct Inputs {
    pub obs: Obs,
    pub nav: Nav,
    pub settings: Settings,
    pub theirs: Log,
}

/// A file is missing or isn't accepted.
#[derive(Clone, Copy, Debug)]
pub struct BadInput;

/// The bytes of a file.
fn bytes_of<H: Shelf>(
    alloc: Global,
    shelf: &mut H,
    name: &str,
    slot: Slot,
) -> Result<Vec<u8>, BadInput>
    ensures { IfOk result (λ bytes. length bytes.items ≤ 4000000000) }
{
    if shelf.begin(name, slot).is_err() {
        return Err(BadInput);
    }
    match read_all(alloc, shelf, slot, LIMIT) {
        Ok(bytes) => Ok(bytes),
        Err(_) => Err(BadInput),
    }
}

/// Reads the four files.
pub fn read_inputs<H: Shelf>(
    alloc: Global,
    shelf: &mut H,
    obs: &str,
    nav: &str,
    settings: &str,
    rows: &str,
) -> Result<Inputs, BadInput> {
    let text = bytes_of(alloc, shelf, settings, Slot::Settings)?;
    let Ok(settings) = read_settings(alloc, &text) else {
        return Err(BadInput);
    };
    let text = bytes_of(alloc, shelf, nav, Slot::Nav)?;
    let Ok(nav) = read_nav(alloc, &text) else {
        return Err(BadInput);
    };
    let text = bytes_of(alloc, shelf, obs, Slot::Obs)?;
    let Ok(obs) = read_obs(alloc, &text, &settings.signal, false) else {
        return Err(BadInput);
    };
    let text = bytes_of(alloc, shelf, rows, Slot::Rows)?;
    let Ok(text) = Rc::new(alloc, text) else {
        return Err(BadInput);
    };
    let Ok(theirs) = read_rows(alloc, &text) else {
        return Err(BadInput);
    };
    Ok(Inputs {
        obs,
        nav,
        settings,
        theirs,
    })
}
