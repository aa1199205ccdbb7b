//! Keys: where they stand in the tree of a text, and how their faults are told.

ghost use Rattle.std.specs.Prelude.{◌≡◌, ◌<◌, ◌+◌, length, IfOk, IfSome};
ghost use Rattle.toml.specs.View.{table_view};
ghost use Rattle.error_bounds.specs.Keys.{data_at, dotted, if_there};
ghost use Rattle.error_bounds.specs.Reading.{Answers, AnswersOptional, Tells, data_of, optional_data_of};

use crate::fault::{Fault, KeyText, SettingsFault};
use crate::form::Form;
use toml::{Table, Value};

/// What is read at a key that has to be there.
pub fn required<F: Form>(
    tree: &Table,
    table: &str,
    name: &str,
    form: &F,
) -> Result<F::Output, SettingsFault>
    requires { length table.now + length name.now < 64 }
    ensures value { Answers (F.reads form.now) table.now name.now (table_view tree.now) result }
    ensures allowed { IfOk result (F.allows form.now) }
{
    let value = match find(tree, table, name) {
        Ok(value) => value,
        Err(fault) => return Err(fault_at(fault, table, name)),
    };
    match form.read(value) {
        Ok(read) => Ok(read),
        Err(fault) => Err(fault_at(fault, table, name)),
    }
}

/// What is read at a key that may be absent.
pub fn optional<F: Form>(
    tree: &Table,
    table: &str,
    name: &str,
    form: &F,
) -> Result<Option<F::Output>, SettingsFault>
    requires { length table.now + length name.now < 64 }
    ensures value { AnswersOptional (F.reads form.now) table.now name.now (table_view tree.now)
        result }
    ensures allowed { IfOk result (λ read. IfSome read (F.allows form.now)) }
{
    let value = match find_optional(tree, table, name) {
        Ok(Some(value)) => value,
        Ok(None) => return Ok(None),
        Err(fault) => return Err(fault_at(fault, table, name)),
    };
    match form.read(value) {
        Ok(read) => Ok(Some(read)),
        Err(fault) => Err(fault_at(fault, table, name)),
    }
}

/// What a table has at a name that may be absent, with the table or without.
fn find_optional<'a>(tree: &'a Table, table: &str, name: &str) -> Result<Option<&'a Value>, Fault>
    ensures { optional_data_of result
        ≡ if_there (data_at table.now name.now (table_view tree.now)) }
{
    match find(tree, table, name) {
        Ok(value) => Ok(Some(value)),
        Err(Fault::Missing) => Ok(None),
        Err(fault) => Err(fault),
    }
}

/// What a table has at a name.
fn find<'a>(tree: &'a Table, table: &str, name: &str) -> Result<&'a Value, Fault>
    ensures { data_of result ≡ data_at table.now name.now (table_view tree.now) }
{
    let Some(value) = tree.get(table) else {
        return Err(Fault::Missing);
    };
    let Some(members) = value.as_table() else {
        return Err(Fault::WrongKind);
    };
    match members.get(name) {
        Some(value) => Ok(value),
        None => Err(Fault::Missing),
    }
}

/// The fault at the key of this name in a table.
pub fn fault_at(fault: Fault, table: &str, name: &str) -> SettingsFault
    requires { length table.now + length name.now < 64 }
    ensures { Tells (record { fault = fault; key = dotted table.now name.now }) result }
{
    let mut key = KeyText::new();
    key.push_str(table);
    key.push_str(".");
    key.push_str(name);
    SettingsFault::new(fault, key.as_str())
}
