//! The records of all made satellites, and what they read as.

ghost use Rattle.std.specs.Prelude.{◌≡◌, ◌≤◌, IfOk, length, map};
ghost use Rattle.made_texts.specs.NavText.{broadcast_of, AreNamed, nav_lines};
ghost use Rattle.made_texts.specs.TextLines.{text_of};
ghost use Rattle.made_input.specs.MadeRecords.{made_records, AllWellWritten};
ghost use Rattle.rinex_nav.specs.Reading.{records_of};

use crate::generator::Generator;
use crate::records::made_record;
use grid_model::NoMemory;
use made_texts::{Ephemeris, nav_text};
use rinex_nav::{Nav, read_nav};
use rinex_text::ReadError;
use std::alloc::Global;

/// The records of the eight satellites, by a draw each behind those of the place.
pub(crate) fn made_records(alloc: Global, draws: &mut Generator) -> Result<Vec<Ephemeris>, NoMemory>
    requires taken { draws.old.taken ≡ 3 }
    ensures records { IfOk result (λ records. map broadcast_of records.items ≡ made_records
        draws.old.seed) }
    ensures named { IfOk result (λ records. AreNamed records.items) }
    ensures written { IfOk result (λ records. AllWellWritten records.items) }
    ensures count { IfOk result (λ records. length records.items ≡ 8) }
    ensures seed { draws.new.seed ≡ draws.old.seed }
    ensures taken { IfOk result (λ _. draws.new.taken ≡ 11) }
{
    let mut records = Vec::new(alloc);
    for k in 1..9_u8 {
        records.push(made_record(k, draws.below(100)))?;
    }
    Ok(records)
}

/// The text of a navigation file with these records, and what it reads as.
pub(crate) fn read_back(alloc: Global, records: &[Ephemeris]) -> Result<(Vec<u8>, Nav), NoMemory>
    requires named { AreNamed records.now }
    requires few { length records.now ≤ 200000 }
    ensures text { IfOk result (λ made. made.0.items ≡ text_of (nav_lines records.now)) }
    ensures records { IfOk result (λ made. records_of made.1 ≡ map broadcast_of records.now) }
{
    let text = nav_text(alloc, records)?;
    match read_nav(alloc, text.as_slice()) {
        Ok(nav) => Ok((text, nav)),
        Err(ReadError::NoMemory) => Err(NoMemory),
        Err(ReadError::Refused(_)) => unreachable!(),
    }
}
