//! The text of settings.

ghost use Rattle.std.specs.Prelude.{◌≡◌, ◌∷◌, [], false, ℕ, ℤ, List, Some, IfOk, IsUtf8};
ghost use Rattle.toml.specs.Data.{string, array, table};
ghost use Rattle.toml.specs.Parse.{parse_document};
ghost use Rattle.toml.specs.Text.{IsDocumentText};
ghost use Rattle.toml.specs.View.{view, table_view};
ghost use Rattle.error_bounds.specs.Texts.{IsSettings};
ghost use Rattle.made_texts.specs.SettingsText.{integers, span, put_member, bounds_table};
ghost use Rattle.made_texts.specs.SettingsText.{search_table, signal_table, settings_table};
ghost use Rattle.made_texts.specs.SettingsText.{settings_of, AreNear};

use grid_model::NoMemory;
use std::alloc::Global;
use toml::{Table, Value};

/// A text that reads as this table is accepted with these settings.
pub fn settings_are_accepted()
    ensures { (text : List ℕ) (x y z : ℤ) → AreNear x y z → IsUtf8 text
        → parse_document text ≡ Some (settings_table x y z) → IsSettings text (settings_of x y z) }
{}

/// Two ends.
fn pair(alloc: Global, lo: i64, hi: i64) -> Result<Value, NoMemory>
    ensures { IfOk result (λ value. view value ≡ span lo hi) }
{
    let mut items = Vec::new(alloc);
    items.push(Value::from(lo))?;
    items.push(Value::from(hi))?;
    Ok(Value::Array(items))
}

/// Three coordinates.
fn three(alloc: Global, x: i64, y: i64, z: i64) -> Result<Value, NoMemory>
    ensures { IfOk result (λ value. view value ≡ array (integers (x ∷ y ∷ z ∷ []))) }
{
    let mut items = Vec::new(alloc);
    items.push(Value::from(x))?;
    items.push(Value::from(y))?;
    items.push(Value::from(z))?;
    Ok(Value::Array(items))
}

/// A value at a key of a table.
fn put(alloc: Global, table: &mut Table, name: &str, value: Value) -> Result<(), NoMemory>
    ensures { IfOk result (λ _. table_view table.new ≡ put_member name.now (view value) (table_view
        table.old)) }
{
    let key = String::from_str(alloc, name)?;
    table.insert(key, value)?;
    Ok(())
}

/// The bounds.
fn bounds(alloc: Global) -> Result<Table, NoMemory>
    ensures { IfOk result (λ t. table_view t ≡ bounds_table) }
{
    let mut table = Table::new(alloc);
    put(alloc, &mut table, "receiver", pair(alloc, -2500, 2500)?)?;
    put(alloc, &mut table, "orbit_clock", pair(alloc, 0, 0)?)?;
    put(alloc, &mut table, "ionosphere", pair(alloc, 0, 0)?)?;
    put(alloc, &mut table, "troposphere", pair(alloc, 0, 0)?)?;
    Ok(table)
}

/// The signal.
fn signal(alloc: Global) -> Result<Table, NoMemory>
    ensures { IfOk result (λ t. table_view t ≡ signal_table) }
{
    let mut codes = Vec::new(alloc);
    codes.push(Value::string(alloc, "C1C")?)?;
    let mut table = Table::new(alloc);
    put(alloc, &mut table, "mode", Value::string(alloc, "single")?)?;
    put(alloc, &mut table, "codes", Value::Array(codes))?;
    Ok(table)
}

/// The search, around a centre in mm.
fn search(alloc: Global, x: i64, y: i64, z: i64) -> Result<Table, NoMemory>
    ensures { IfOk result (λ t. table_view t ≡ search_table x y z) }
{
    let mut table = Table::new(alloc);
    put(alloc, &mut table, "centre", three(alloc, x, y, z)?)?;
    put(alloc, &mut table, "half", Value::Integer(50_000))?;
    put(alloc, &mut table, "outliers", Value::Integer(1))?;
    put(alloc, &mut table, "bisections", Value::Integer(64))?;
    put(alloc, &mut table, "width", Value::Integer(1_000))?;
    put(alloc, &mut table, "max_age", Value::Integer(7_200))?;
    Ok(table)
}

/// The whole table.
fn table(alloc: Global, x: i64, y: i64, z: i64) -> Result<Table, NoMemory>
    ensures { IfOk result (λ t. table_view t ≡ settings_table x y z) }
{
    let mut table = Table::new(alloc);
    put(
        alloc,
        &mut table,
        "search",
        Value::Table(search(alloc, x, y, z)?),
    )?;
    put(alloc, &mut table, "signal", Value::Table(signal(alloc)?))?;
    put(alloc, &mut table, "bounds", Value::Table(bounds(alloc)?))?;
    Ok(table)
}

/// The text of settings around a centre in mm. Its reader accepts it with these settings.
pub fn settings_text(alloc: Global, x: i64, y: i64, z: i64) -> Result<Vec<u8>, NoMemory>
    requires near { AreNear x y z }
    ensures text { IfOk result (λ text. IsDocumentText false (settings_table x y z) text.items) }
    ensures accepted { IfOk result (λ text. IsSettings text.items (settings_of x y z)) }
{
    let table = table(alloc, x, y, z)?;
    match toml::table_to_string(alloc, &table) {
        Ok(text) => { Ok(text.into_bytes()) }
        Err(_) => Err(NoMemory),
    }
}
