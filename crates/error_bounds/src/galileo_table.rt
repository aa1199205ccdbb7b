//! The table of Galileo, which may be absent.

ghost use Rattle.std.specs.Prelude.{◌≡◌, None, Some, Ok, Err, option_map, IfOk, IfErr, OnOk};
ghost use Rattle.sat_model.specs.Relaxed.{ends};
ghost use Rattle.toml.specs.Data.{as_table};
ghost use Rattle.toml.specs.View.{view, table_view};
ghost use Rattle.error_bounds.specs.Keys.{mode_of, has_galileo, not_in_single, message_in, lacks_codes, value_of, galileo_codes, galileo_offset, galileo_keys, galileo_tests, first_found};
ghost use Rattle.error_bounds.specs.Reading.{galileo_value, TellsFirst};
ghost use Rattle.error_bounds.specs.Texts.{IsGalileo};

use crate::fault::{Fault, SettingsFault};
use crate::form::{DECLARED, Form};
use crate::galileo::Galileo;
use crate::key::{fault_at, required};
use crate::signals::{GalileoCodes, MessageWord, Mode};
use gnss_model::Message;
use toml::{Table, Value};

/// Whether the table is there.
pub fn has_galileo(tree: &Table) -> bool
    ensures { result ≡ has_galileo (table_view tree.now) }
{
    tree.get("galileo").is_some()
}

/// What is wrong with the table in single mode.
fn not_in_single(value: &Value) -> Fault
    ensures { not_in_single (as_table (view value.now)) ≡ Err result }
{
    match value.as_table() {
        Some(_) => Fault::Outside,
        None => Fault::WrongKind,
    }
}

/// The message at its key in the table, or F/NAV where that is absent.
fn message_of(members: &Table) -> Result<Message, Fault>
    ensures { result ≡ message_in (Some (table_view members.now)) }
{
    match members.get("message") {
        Some(value) => MessageWord.read(value),
        None => Ok(Message::Fnav),
    }
}

/// The message in what stands for the table.
fn read_message(value: &Value) -> Result<Message, Fault>
    ensures { result ≡ message_in (as_table (view value.now)) }
{
    match value.as_table() {
        Some(members) => message_of(members),
        None => Ok(Message::Fnav),
    }
}

/// Whether there are no codes for the mode by the message: one code goes by I/NAV alone.
fn lacks_codes(mode: Mode, message: Message) -> bool
    ensures { result ≡ lacks_codes mode message }
{
    match mode {
        Mode::Single => match message {
            Message::Fnav => true,
            Message::Inav => false,
        },
        Mode::Dual => false,
    }
}

/// The other keys of the table.
fn read_keys(tree: &Table, mode: Mode, message: Message) -> Result<Galileo, SettingsFault>
    ensures none { OnOk result
        (first_found (galileo_keys mode message (table_view tree.now)) ≡ None) }
    ensures message { IfOk result (λ galileo. galileo.message ≡ message) }
    ensures signal { IfOk result (λ galileo.
        value_of (galileo_codes mode message) (table_view tree.now) ≡ Ok galileo.signal) }
    ensures offset { IfOk result (λ galileo.
        value_of galileo_offset (table_view tree.now) ≡ Ok (ends galileo.offset)) }
    ensures fault { IfErr result (TellsFirst (galileo_keys mode message (table_view tree.now))) }
{
    let signal = required(tree, "galileo", "codes", &GalileoCodes { mode, message })?;
    let offset = required(tree, "galileo", "offset", &DECLARED)?;
    Ok(Galileo {
        message,
        signal,
        offset,
    })
}

/// What the table gives, where it is there. In single mode none is right by F/NAV.
pub fn read_galileo(tree: &Table, mode: Mode) -> Result<Option<Galileo>, SettingsFault>
    requires { mode_of (table_view tree.now) ≡ mode }
    ensures none { OnOk result (first_found (galileo_tests (table_view tree.now)) ≡ None) }
    ensures value { IfOk result (λ galileo.
        IsGalileo (table_view tree.now) (option_map galileo_value galileo)) }
    ensures fault { IfErr result (TellsFirst (galileo_tests (table_view tree.now))) }
{
    let Some(value) = tree.get("galileo") else {
        return Ok(None);
    };
    let message = match read_message(value) {
        Ok(message) => message,
        Err(fault) => return Err(fault_at(fault, "galileo", "message")),
    };
    if lacks_codes(mode, message) {
        return Err(fault_at(not_in_single(value), "galileo", "codes"));
    }
    match read_keys(tree, mode, message) {
        Ok(galileo) => Ok(Some(galileo)),
        Err(fault) => Err(fault),
    }
}
