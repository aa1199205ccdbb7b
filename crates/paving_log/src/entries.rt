//! The satellite lines of a block.

ghost use Rattle.std.specs.Prelude.{◌≡◌, IfOk};
ghost use Rattle.sat_model.specs.Logs.{rows_of};

use sat_model::{Row, SatEntry};
use std::alloc::{AllocError, Global};

/// The rows among the satellite lines.
pub fn rows_among(alloc: Global, sats: &[SatEntry]) -> Result<Vec<Row>, AllocError>
    ensures { IfOk result (λ rows. rows.items ≡ rows_of sats.now) }
{
    let mut rows = Vec::new(alloc);
    for entry in sats {
        match entry {
            SatEntry::Row(row) => rows.push(*row)?,
            SatEntry::Skipped { .. } => {}
        }
    }
    Ok(rows)
}
