//! Shelves in memory with the files of a run, and the words that ask for it.

ghost use Rattle.std.specs.Prelude.{◌≡◌, IfOk, string_bytes};
ghost use Rattle.outer_io.specs.Store.{HaveOwnNames};

use crate::texts::{NAV, OBS, SETTINGS};
use grid_model::NoMemory;
use outer_io::MemoryShelf;
use std::alloc::{AllocError, Global};

/// The words of a run.
pub fn words(alloc: Global, texts: &[&str]) -> Result<Vec<String>, AllocError> {
    let mut words = Vec::new(alloc);
    for text in texts {
        words.push(String::from_str(alloc, *text)?)?;
    }
    Ok(words)
}

/// A file with a name and bytes.
fn file(alloc: Global, name: &str, text: &str) -> Result<(String, Vec<u8>), NoMemory>
    ensures { IfOk result (λ file. string_bytes file.0 ≡ name.now) }
{
    let mut bytes = Vec::new(alloc);
    bytes.extend_from_slice(text.as_bytes())?;
    Ok((String::from_str(alloc, name)?, bytes))
}

/// The files `a.obs`, `a.nav` and `a.toml` of a receiver, and `a.log` with this text.
fn four_files(alloc: Global, log: &str) -> Result<Vec<(String, Vec<u8>)>, NoMemory>
    ensures { IfOk result (λ files. HaveOwnNames files.items) }
{
    let obs = file(alloc, "a.obs", OBS)?;
    let nav = file(alloc, "a.nav", NAV)?;
    let settings = file(alloc, "a.toml", SETTINGS)?;
    let log = file(alloc, "a.log", log)?;
    Ok(vec![in alloc; obs, nav, settings, log]?)
}

/// A shelf with these files, on which `written` alone can be written, up to so many bytes. The call
/// of the number `fails` fails, none where it is 0.
pub fn shelf(
    alloc: Global,
    log: &str,
    written: &str,
    room: u64,
    fails: u64,
) -> Result<MemoryShelf, NoMemory> {
    let files = four_files(alloc, log)?;
    let written = String::from_str(alloc, written)?;
    Ok(MemoryShelf::make(alloc, files, written, room, vec![in alloc; fails]?)?)
}
