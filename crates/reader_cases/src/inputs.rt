//! What the readers of a case are given.

ghost use Rattle.std.specs.Prelude.{◌≤◌, length, IfOk};

use crate::fields::Fields;
use std::alloc::{AllocError, Global};
use std::fs;
use std::io::{self, ErrorKind};

/// The most bytes that a reader takes.
const LONGEST: usize = 4_000_000_000;

/// The text of a field: `@` ends a line, and a backslash stands before r and t.
fn unescaped(alloc: Global, field: &str) -> Result<String, AllocError> {
    let text = field.replace(alloc, "@", "\n")?;
    let text = text.replace(alloc, "\\r", "\r")?;
    text.replace(alloc, "\\t", "\t")
}

/// The bytes of a field.
pub fn bytes_of(rt: &HostRuntime, fields: Fields<'_>) -> io::Result<Vec<u8>>
    ensures { IfOk result (λ bytes. length bytes.items ≤ 4000000000) }
{
    let mut fields = fields;
    let bytes = unescaped(rt.alloc(), fields.text()?)?.into_bytes();
    if bytes.len() > LONGEST {
        return Err(ErrorKind::InvalidData.into());
    }
    Ok(bytes)
}

/// The text with a change, `COPIES^OLD^NEW`: so many copies of NEW in the first place of OLD, or,
/// where COPIES is `all`, NEW in each place.
fn changed(alloc: Global, text: &str, change: &str) -> io::Result<String> {
    let mut parts = Fields::between(change, '^');
    let copies = parts.text()?;
    let old = unescaped(alloc, parts.text()?)?;
    let new = unescaped(alloc, parts.text()?)?;
    if copies == "all" {
        return Ok(text.replace(alloc, old.as_str(), new.as_str())?);
    }
    let Ok(copies) = copies.parse() else {
        return Err(ErrorKind::InvalidInput.into());
    };
    let new = new.repeat(alloc, copies)?;
    Ok(text.replacen(alloc, old.as_str(), new.as_str(), 1)?)
}

/// The bytes of the file that the first field names, with the changes of the fields behind it.
pub fn file(rt: &HostRuntime, fields: Fields<'_>) -> io::Result<Vec<u8>>
    ensures { IfOk result (λ bytes. length bytes.items ≤ 4000000000) }
{
    let mut fields = fields;
    let mut bytes = fs::read(rt, fields.text()?)?;
    for change in fields.rest() {
        let Ok(text) = str::from_utf8(&bytes) else {
            return Err(ErrorKind::InvalidData.into());
        };
        bytes = changed(rt.alloc(), text, change)?.into_bytes();
    }
    if bytes.len() > LONGEST {
        return Err(ErrorKind::InvalidData.into());
    }
    Ok(bytes)
}
