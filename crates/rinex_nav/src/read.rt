//! Navigation files.

ghost use Rattle.std.specs.Prelude.{◌≡◌, ◌≤◌, ◌<◌, ◌+◌, List, IfOk, IfErr, OnOk, Some, None};
ghost use Rattle.std.specs.Prelude.{is_some, Ok, Err, length, option_map, ◌++◌, ◌⊎◌};
ghost use Rattle.rinex_text.specs.Lines.{lines_of};
ghost use Rattle.rinex_text.specs.Headers.{version_by};
ghost use Rattle.rinex_text.specs.declared.fault.Refusal.{Refusal};
ghost use Rattle.rinex_text.specs.Reading.{left_of, body_left, body_behind, Leaves, Refuses, GivesRefusal};
ghost use Rattle.rinex_text.specs.Whole.{IsSettled};
ghost use Rattle.rinex_nav.specs.Files.{records_from, nav_file, nav_file_of, IsNavFile};
ghost use Rattle.rinex_nav.specs.Files.{IsNavFileOf, IsFirstFault, IsFirstFaultOf};
ghost use Rattle.rinex_nav.specs.Index.{IsIndex};
ghost use Rattle.rinex_nav.specs.Reading.{plain_record, records_of, listed_of, GivesRecords};
ghost use Rattle.rinex_text.specs.declared.fault.ReadError.TheVariants.{NoMemory};
ghost use Rattle.rinex_nav.specs.Whole.{IsWhole, IsWholeOf};
ghost use Rattle.rinex_nav.specs.Records.{Broadcast, record_from};
ghost use Rattle.rinex_nav.specs.Sources.{IsKept};

use crate::line::is_read;
use crate::nav::Nav;
use crate::places::{Places, add_place};
use crate::record::NavRecord;
use crate::source::is_kept;
use crate::take::{take_clock, take_health, take_last, take_source, take_unread, take_whole};
use exact_decimal::Decimal;
use gnss_model::Message;
use indexmap::IndexMap;
use rinex_text::{
    Body, Fault, Lines, ReadError, Refusal, behind_header, behind_version_of, column, is_short,
};
use std::alloc::Global;

/// The record, where it is kept.
fn kept(galileo: Option<Message>, one: NavRecord, source: &Decimal) -> Option<NavRecord>
    ensures { (IsKept galileo one.sat source.now
        × (option_map plain_record result ≡ Some (plain_record one)))
        ⊎ ((IsKept galileo one.sat source.now → ⊥) × (result ≡ None)) }
{
    if is_kept(galileo, one.sat, source) {
        return Some(one);
    }
    None
}

/// The record that begins with the next line, behind so many records: none where it isn't kept.
fn read_record(
    body: Body<'_>,
    galileo: Option<Message>,
    count: usize,
) -> Result<(Option<NavRecord>, Body<'_>), Refusal>
    ensures record { IfOk result (λ t.
        record_from galileo count (body_behind body.entry) (Ok (option_map plain_record t.0))) }
    ensures left { IfOk result (λ t. Leaves body.entry 8 t.1) }
    ensures few { OnOk result (count < 200000) }
    ensures fault { IfErr result (λ e. record_from galileo count (body_behind body.entry) (Err e)) }
{
    let ((sat, toc, (af0, af1, af2)), left) = take_clock(body, count)?;
    let ((crs, dn, m0), left) = take_last(left, galileo)?;
    let ((cuc, e, cus, root_a), left) = take_whole(left, galileo)?;
    let ((toe, cic, om0, cis), left) = take_whole(left, galileo)?;
    let ((i0, crc, omega, om_dot), left) = take_whole(left, galileo)?;
    let ((idot, source), left) = take_source(left, galileo, sat.system)?;
    let ((healthy, tgd), left) = take_health(left, galileo, sat.system)?;
    let ((), left) = take_unread(left, galileo)?;
    let record = NavRecord {
        sat,
        toc,
        healthy,
        fields: [
            af0, af1, af2, crs, dn, m0, cuc, e, cus, root_a, toe, cic, om0, cis, i0, crc, omega,
            om_dot, idot, tgd,
        ],
    };
    Ok((kept(galileo, record, &source), left))
}

/// Keeps the record behind those before, where there is one.
fn keep(
    alloc: Global,
    records: &mut Vec<NavRecord>,
    places: &mut Places,
    found: Option<NavRecord>,
) -> Result<(), ReadError>
    requires { length records.old.items < 200000 }
    ensures items { OnOk result (records.new.items ≡ records.old.items ++ listed_of found) }
    ensures index { OnOk result (IsIndex places.old records.old.items →
        IsIndex places.new records.new.items) }
    ensures memory { IfErr result (λ e. e ≡ NoMemory) }
{
    if let Some(record) = found {
        add_place(alloc, places, record.sat, records.len() as u32)?;
        records.push(record)?;
    }
    Ok(())
}

/// The records of a body.
fn read_records(alloc: Global, body: Body<'_>, galileo: Option<Message>) -> Result<Nav, ReadError>
    ensures records { IfOk result
        (λ nav. records_from galileo 0 body.entry.lines.number 0 (body_left body.entry)
        (Ok (records_of nav))) }
    ensures fault { IfErr result
        (Refuses (records_from galileo 0 body.entry.lines.number 0 (body_left body.entry))) }
{
    let mut records = Vec::new(alloc);
    let mut places = IndexMap::new(alloc);
    let mut left = body;
    let mut count = 0;
    'lines: while let Some((line, behind)) = left.split_first() {
        if is_read(column(line.text, 1), galileo) {
            let (found, after) = read_record(left, galileo, count)?;
            keep(alloc, &mut records, &mut places, found)?;
            count += 1;
            left = after;
        } else {
            if !is_short(line) {
                let refusal = Refusal::new(Fault::LongLine, left.lines.number);
                return Err(ReadError::Refused(refusal));
            }
            left = behind;
        }
    }
    Ok(Nav { records, places })
}

/// The lines behind the first, which may be one of Galileo's where a message of it is wanted.
fn behind_first(bytes: &[u8], galileo: Option<Message>) -> Result<Lines<'_>, Refusal>
    requires { length bytes.now ≤ 4000000000 }
    ensures { version_by (is_some galileo) 78 (lines_of bytes.now) (left_of result) }
{
    behind_version_of(bytes, b'N', galileo.is_some())
}

/// The records of a navigation file, or its first fault.
fn read_text(alloc: Global, bytes: &[u8], galileo: Option<Message>) -> Result<Nav, ReadError>
    requires { length bytes.now ≤ 4000000000 }
    ensures records { IfOk result (λ nav. IsNavFileOf galileo bytes.now (records_of nav)) }
    ensures fault { IfErr result (Refuses (nav_file_of galileo (lines_of bytes.now))) }
{
    let header = match behind_first(bytes, galileo) {
        Ok(lines) => lines,
        Err(refusal) => return Err(ReadError::Refused(refusal)),
    };
    let lines = match behind_header(header) {
        Ok(lines) => lines,
        Err(refusal) => return Err(ReadError::Refused(refusal)),
    };
    read_records(alloc, Body::new(lines), galileo)
}

/// Reads a navigation file of at most 4 * 10^9 bytes: its GPS records in file order, or where
/// a message of `galileo` is wanted also the Galileo records of that message. The header is read
/// line by line, then the lines behind it are counted and read once; no line is copied.
pub fn read_nav_of(alloc: Global, bytes: &[u8], galileo: Option<Message>) -> Result<Nav, ReadError>
    requires { length bytes.now ≤ 4000000000 }
    // What is read are the records of a navigation file with this text.
    ensures records { IfOk result (λ nav. IsNavFileOf galileo bytes.now (records_of nav)) }
    // What isn't read has this first fault, unless memory ran out.
    ensures fault { IfErr result (Refuses (nav_file_of galileo (lines_of bytes.now))) }
    // A navigation file is read as its records, unless memory runs out.
    ensures exact { (records : List Broadcast) → IsNavFileOf galileo bytes.now records →
        GivesRecords records result }
    // A text with a fault is refused with its first, unless memory runs out.
    ensures first { (refusal : Refusal) → IsFirstFaultOf galileo bytes.now refusal →
        GivesRefusal refusal result }
    // What is behind the line of the fault matters only where that is blank: then, whether all is.
    ensures settled { IfErr result (IsSettled (nav_file_of galileo) bytes.now) }
    // How its lines are shared out, and which records come of them.
    ensures whole { IfOk result (λ nav. IsWholeOf galileo (lines_of bytes.now) (records_of nav)) }
{
    read_text(alloc, bytes, galileo)
}

/// Reads a navigation file of at most 4 * 10^9 bytes: its GPS records in file order.
pub fn read_nav(alloc: Global, bytes: &[u8]) -> Result<Nav, ReadError>
    requires { length bytes.now ≤ 4000000000 }
    // What is read are the records of a navigation file with this text.
    ensures records { IfOk result (λ nav. IsNavFile bytes.now (records_of nav)) }
    // What isn't read has this first fault, unless memory ran out.
    ensures fault { IfErr result (Refuses (nav_file (lines_of bytes.now))) }
    // A navigation file is read as its records, unless memory runs out.
    ensures exact { (records : List Broadcast) → IsNavFile bytes.now records →
        GivesRecords records result }
    // A text with a fault is refused with its first, unless memory runs out.
    ensures first { (refusal : Refusal) → IsFirstFault bytes.now refusal →
        GivesRefusal refusal result }
    // What is behind the line of the fault matters only where that is blank: then, whether all is.
    ensures settled { IfErr result (IsSettled nav_file bytes.now) }
    // How its lines are shared out, and which records come of them.
    ensures whole { IfOk result (λ nav. IsWhole (lines_of bytes.now) (records_of nav)) }
{
    read_nav_of(alloc, bytes, None)
}

/// Reads a navigation file of at most 4 * 10^9 bytes: its GPS records, and those Galileo records
/// that are of the message, in file order.
pub fn read_nav_both(alloc: Global, bytes: &[u8], message: Message) -> Result<Nav, ReadError>
    requires { length bytes.now ≤ 4000000000 }
    // What is read are the records of a navigation file with this text.
    ensures records { IfOk result (λ nav. IsNavFileOf (Some message) bytes.now (records_of nav)) }
    // What isn't read has this first fault, unless memory ran out.
    ensures fault { IfErr result (Refuses (nav_file_of (Some message) (lines_of bytes.now))) }
    // A navigation file is read as its records, unless memory runs out.
    ensures exact { (records : List Broadcast) → IsNavFileOf (Some message) bytes.now records →
        GivesRecords records result }
    // A text with a fault is refused with its first, unless memory runs out.
    ensures first { (refusal : Refusal) → IsFirstFaultOf (Some message) bytes.now refusal →
        GivesRefusal refusal result }
    // What is behind the line of the fault matters only where that is blank: then, whether all is.
    ensures settled { IfErr result (IsSettled (nav_file_of (Some message)) bytes.now) }
    // How its lines are shared out, and which records come of them.
    ensures whole { IfOk result (λ nav. IsWholeOf (Some message) (lines_of bytes.now) (records_of nav)) }
{
    read_nav_of(alloc, bytes, Some(message))
}
