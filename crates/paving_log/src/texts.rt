//! A log, or its rows, from a text.

ghost use Rattle.std.specs.Prelude.{◌≡◌, ◌⊎◌, ◌≤◌, length, IfOk, IfErr};
ghost use Rattle.sat_model.specs.Logs.{LogValue};
ghost use Rattle.log_lines.specs.declared.line.Place.TheVariants as place;
ghost use Rattle.paving_log.specs.declared.log.LogError.{LogError};
ghost use Rattle.paving_log.specs.declared.log.LogError.TheVariants as error;
ghost use Rattle.paving_log.specs.Answers.{GivesLog, GivesFault};
ghost use Rattle.paving_log.specs.Faults.{FaultFrom, FirstFault};
ghost use Rattle.paving_log.specs.RowsText.{IsSpelling, IsRowsText, FirstRowsFault, ArePavable};
ghost use Rattle.log_lines.specs.Text.{IsLogText, AreUnrenewed};
ghost use Rattle.paving_log.specs.Values.{log_value};

use crate::lines::Lines;
use crate::log::{Log, LogError};
use crate::own_tests::first_own_fault;
use crate::read::{blocks, head};
use log_lines::{Kind, form_of};
use std::alloc::Global;
use std::rc::Rc;

/// The log that the bytes of the text spell, or its rows alone, or the first line that doesn't fit.
fn read_bytes(alloc: Global, kind: Kind, text: &Rc<Vec<u8>>, bytes: &[u8]) -> Result<Log, LogError>
    requires whole { bytes.now ≡ text.now.value.items }
    requires short { length bytes.now ≤ 4000000000 }
    ensures value { IfOk result (λ log. IsSpelling kind (log_value log) bytes.now) }
    ensures fault { IfErr result (λ e. (e ≡ error.NoMemory)
        ⊎ FaultFrom (place.First kind) bytes.now 1 e) }
{
    let lines = Lines {
        rest: bytes,
        number: 1,
    };
    let (version, rules, left) = head(kind, lines)?;
    let epochs = blocks(alloc, text, form_of(kind, version), left)?;
    Ok(Log {
        version,
        rules,
        epochs,
    })
}

/// The log that the text spells, or its rows alone, or the first line that doesn't fit.
fn read_text(alloc: Global, kind: Kind, text: &Rc<Vec<u8>>) -> Result<Log, LogError>
    requires { length text.now.value.items ≤ 4000000000 }
    ensures value { IfOk result (λ log. IsSpelling kind (log_value log) text.now.value.items) }
    ensures fault { IfErr result (λ e. (e ≡ error.NoMemory)
        ⊎ FaultFrom (place.First kind) text.now.value.items 1 e) }
{
    let bytes: &Vec<u8> = text;
    read_bytes(alloc, kind, text, bytes)
}

/// Reads a log from its text, once from left to right. The log keeps the text, from which its steps
/// are read when they are asked for; all else that it keeps takes memory in proportion to the other
/// lines.
pub fn read_log(alloc: Global, text: &Rc<Vec<u8>>) -> Result<Log, LogError>
    requires { length text.now.value.items ≤ 4000000000 }
    // What is read is a log that fits and has this text.
    ensures value { IfOk result (λ log. IsLogText (log_value log) text.now.value.items) }
    // What isn't read has this first fault, unless memory ran out.
    ensures fault { IfErr result (λ e. (e ≡ error.NoMemory) ⊎ FirstFault text.now.value.items e) }
    // The text of a log is read as that log, unless memory runs out.
    ensures exact { (log : LogValue) → IsLogText log text.now.value.items → GivesLog log result }
    // A text with a fault is refused with its first, unless memory runs out.
    ensures first { (e : LogError) → FirstFault text.now.value.items e → GivesFault e result }
    // In a log of version 1 no rows are renewed.
    ensures steps_alone { IfOk result (λ log. log.version ≡ 1 →
        AreUnrenewed (log_value log).blocks) }
{
    read_text(alloc, Kind::Log, text)
}

/// The rows that the text spells, or its first fault.
fn tested_rows(alloc: Global, text: &Rc<Vec<u8>>) -> Result<Log, LogError>
    requires { length text.now.value.items ≤ 4000000000 }
    ensures value { IfOk result (λ log. IsRowsText (log_value log) text.now.value.items) }
    ensures fault { IfErr result (λ e. (e ≡ error.NoMemory)
        ⊎ FirstRowsFault text.now.value.items e) }
{
    let log = read_text(alloc, Kind::Rows, text)?;
    match first_own_fault(&log) {
        Some(line) => Err(LogError::BadLog { line, kind: 5 }),
        None => Ok(log),
    }
}

/// Reads the rows of a log from their text: the log without its steps, where each block of an epoch
/// ends with its root. Where all lines fit, the first line that fails a test of its own is refused
/// with kind 5.
pub fn read_rows(alloc: Global, text: &Rc<Vec<u8>>) -> Result<Log, LogError>
    requires { length text.now.value.items ≤ 4000000000 }
    // What is read is a value that fits, passes the tests of its own lines and has this text.
    ensures value { IfOk result (λ log. IsRowsText (log_value log) text.now.value.items) }
    // What isn't read has this first fault, unless memory ran out.
    ensures fault { IfErr result (λ e. (e ≡ error.NoMemory)
        ⊎ FirstRowsFault text.now.value.items e) }
    // The text of rows is read as these rows, unless memory runs out.
    ensures exact { (log : LogValue) → IsRowsText log text.now.value.items → GivesLog log result }
    // A text with a fault is refused with its first, unless memory runs out.
    ensures first { (e : LogError) → FirstRowsFault text.now.value.items e → GivesFault e result }
    // Each block that isn't one of few satellites has a root and enough rows for a paving.
    ensures pavable { IfOk result (λ log. ArePavable (log_value log)) }
{
    tested_rows(alloc, text)
}
