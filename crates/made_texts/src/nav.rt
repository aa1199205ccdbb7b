//! The text of a navigation file.

ghost use Rattle.std.specs.Prelude.{◌≡◌, ◌≤◌, ◌++◌, ◌+◌, [], ◌∷◌, IfOk, List, map, length};
ghost use Rattle.made_texts.specs.NavText.{clock_text, further_text, record_text};
ghost use Rattle.made_texts.specs.NavText.{nav_lines, AreNamed, broadcast_of};
ghost use Rattle.made_texts.specs.TextLines.{text_of};
ghost use Rattle.made_texts.specs.declared.ephemeris.Ephemeris.{Ephemeris};
ghost use Rattle.rinex_nav.specs.Files.{IsNavFile};

use crate::ephemeris::Ephemeris;
use crate::field_number::{FieldNumber, ZERO};
use crate::fields::push_field;
use decimal_digits::push_digits;
use grid_model::NoMemory;
use std::alloc::Global;

/// The text of a file with these records is accepted with these records.
pub fn nav_is_accepted()
    ensures { (records : List Ephemeris) → AreNamed records → length records ≤ 200000
        → IsNavFile (text_of (nav_lines records)) (map broadcast_of records) }
{}

/// The first line of a record.
#[tactic(auto, unfolding(crate::specs::NavText::clock_text))]
fn push_clock(text: &mut Vec<u8>, clock: &Ephemeris) -> Result<(), NoMemory>
    ensures { IfOk result (λ _. text.new.items ≡ text.old.items ++ (clock_text clock.now ++ 10
        ∷ [])) }
{
    text.push(b'G')?;
    push_digits(text, 2, u64::from(clock.number))?;
    text.extend_from_slice(b" 2024 01 07 02 00 00")?;
    push_field(text, &clock.af0)?;
    push_field(text, &clock.af1)?;
    push_field(text, &clock.af2)?;
    text.push(b'\n')?;
    Ok(())
}

/// A further line of a record.
#[tactic(auto, unfolding(crate::specs::NavText::further_text))]
fn push_further(
    text: &mut Vec<u8>,
    a: &FieldNumber,
    b: &FieldNumber,
    c: &FieldNumber,
    d: &FieldNumber,
) -> Result<(), NoMemory>
    ensures { IfOk result (λ _. text.new.items ≡ text.old.items
        ++ (further_text a.now b.now c.now d.now ++ 10 ∷ [])) }
{
    text.extend_from_slice(b"    ")?;
    push_field(text, a)?;
    push_field(text, b)?;
    push_field(text, c)?;
    push_field(text, d)?;
    text.push(b'\n')?;
    Ok(())
}

/// The lines of a record.
#[tactic(auto, unfolding(crate::specs::NavText::record_text))]
fn push_record(text: &mut Vec<u8>, r: &Ephemeris) -> Result<(), NoMemory>
    ensures { IfOk result (λ _. text.new.items ≡ text.old.items ++ record_text r.now) }
{
    push_clock(text, r)?;
    push_further(text, &ZERO, &r.crs, &r.dn, &r.m0)?;
    push_further(text, &r.cuc, &r.e, &r.cus, &r.root_a)?;
    push_further(text, &r.toe, &r.cic, &r.om0, &r.cis)?;
    push_further(text, &r.i0, &r.crc, &r.omega, &r.om_dot)?;
    push_further(text, &r.idot, &ZERO, &ZERO, &ZERO)?;
    push_further(text, &ZERO, &ZERO, &r.tgd, &ZERO)?;
    push_further(text, &ZERO, &ZERO, &ZERO, &ZERO)?;
    Ok(())
}

/// The text of a navigation file with these records. Its reader accepts it with these records.
pub fn nav_text(alloc: Global, records: &[Ephemeris]) -> Result<Vec<u8>, NoMemory>
    requires few { length records.now ≤ 200000 }
    ensures text { IfOk result (λ text. text.items ≡ text_of (nav_lines records.now)) }
    ensures accepted { AreNamed records.now
        → IfOk result (λ text. IsNavFile text.items (map broadcast_of records.now)) }
{
    let mut text = Vec::new(alloc);
    text.extend_from_slice(
        b"     3.05           N: GNSS NAV DATA    G                   RINEX VERSION / TYPE\n",
    )?;
    text.extend_from_slice(
        b"                                                            END OF HEADER\n",
    )?;
    'records: for record in records {
        push_record(&mut text, record)?;
    }
    Ok(text)
}
