//! Settings texts.

ghost use Rattle.std.specs.Prelude.{IfOk, IfErr};
ghost use Rattle.toml.specs.View.{table_view};
ghost use Rattle.error_bounds.specs.Faults.{Found};
ghost use Rattle.error_bounds.specs.Reading.{value_of_settings, IsTreeOf, RefusesTree, RefusesFirst, GivesSettings, GivesFault};
ghost use Rattle.error_bounds.specs.Texts.{SettingsValue, IsSettings, IsFirstFault};

use crate::directions_key::read_directions;
use crate::fault::{Fault, SettingsError, SettingsFault};
use crate::galileo_table::read_galileo;
use crate::motion_table::read_motion;
use crate::names::check_names;
use crate::satellites::read_satellites;
use crate::settings::Settings;
use crate::station_table::read_station;
use crate::tables::{read_bounds, read_search, read_signal};
use std::alloc::Global;
use toml::Table;

/// The settings of a tree, or its first fault.
fn read_tree(alloc: Global, tree: &Table) -> Result<Settings, SettingsError>
    ensures settings { IfOk result (IsTreeOf (table_view tree.now)) }
    ensures fault { IfErr result (RefusesTree (table_view tree.now)) }
{
    let search = read_search(tree)?;
    let directions = read_directions(tree, search.rules.pairs)?;
    let (mode, signal) = read_signal(tree)?;
    let bounds = read_bounds(tree)?;
    let galileo = read_galileo(tree, mode)?;
    let (speed, restart) = read_motion(tree)?;
    let station = read_station(tree, search.max_age)?;
    let extra = read_satellites(alloc, tree)?;
    check_names(alloc, tree)?;
    Ok(Settings {
        centre: search.centre,
        half: search.half,
        rules: search.rules,
        max_age: search.max_age,
        renew: search.renew,
        directions,
        signal,
        common: bounds.common,
        extra,
        delays: bounds.delays,
        galileo,
        speed,
        restart,
        station,
    })
}

/// The settings of a text, or its first fault.
fn read_text(alloc: Global, bytes: &[u8]) -> Result<Settings, SettingsError>
    ensures settings { IfOk result (λ settings. IsSettings bytes.now (value_of_settings settings)) }
    ensures fault { IfErr result (RefusesFirst bytes.now) }
{
    let Ok(text) = str::from_utf8(bytes) else {
        return Err(SettingsError::Refused(SettingsFault::new(Fault::NotToml, "")));
    };
    match toml::table_from_str(alloc, text) {
        Ok(tree) => read_tree(alloc, &tree),
        Err(error) => {
            if error.is_memory() {
                Err(SettingsError::NoMemory)
            } else {
                Err(SettingsError::Refused(SettingsFault::new(Fault::NotToml, "")))
            }
        }
    }
}

/// Reads a settings text. A fault is refused with its number and its key:
///
/// - 30: the bytes aren't UTF-8, or the text is no TOML
/// - 31: a key that has to be there is absent, or the table that should hold it
/// - 32: a value is of another kind, or what should hold a key is no table
/// - 33: a value is another text, has another number of members, or is out of order or range
/// - 34: a name is that of no key
///
/// The keys are tested in their order, and then the names in byte order.
pub fn read_settings(alloc: Global, bytes: &[u8]) -> Result<Settings, SettingsError>
    // What is read is the value that the keys give in the tree of the text.
    ensures settings { IfOk result (λ settings. IsSettings bytes.now (value_of_settings settings)) }
    // A refusal tells of the first fault, unless memory ran out.
    ensures fault { IfErr result (RefusesFirst bytes.now) }
    // A text without a fault is read as its value, unless memory runs out.
    ensures exact { (value : SettingsValue)
        → IsSettings bytes.now value → GivesSettings value result }
    // A text with a fault is refused for its first one, unless memory runs out.
    ensures first { (found : Found) → IsFirstFault bytes.now found → GivesFault found result }
{
    read_text(alloc, bytes)
}
