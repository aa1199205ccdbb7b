//! Names that are those of no key.

ghost use Rattle.std.specs.Prelude.{◌≡◌, ◌++◌, [], false, map, string_bytes, MatchOption, IfOk, IfErr, OnOk};
ghost use Rattle.std.specs.List.{All, Contains};
ghost use Rattle.std.specs.Ordering.{is_lt};
ghost use Rattle.std.specs.String.{string_cmp};
ghost use Rattle.toml.specs.View.{table_view};
ghost use Rattle.error_bounds.specs.Names.{unknown, strangers, members_at, is_table, is_satellite};
ghost use Rattle.error_bounds.specs.Reading.{RefusesName};
ghost use Rattle.error_bounds.specs.Scopes.{knows, prefix_of, printed_in};

use crate::fault::{Fault, SettingsError, SettingsFault};
use crate::galileo_table::has_galileo;
use std::alloc::{AllocError, Global};
use toml::Table;

/// Where names stand: in the root of a tree, or in one of its tables.
#[derive(Clone, Copy)]
enum Scope {
    Root,
    Search,
    Signal,
    Bounds,
    Galileo,
    Motion,
    Station,
    Satellite { both: bool },
}

impl Scope {
    ghost use Rattle.error_bounds.specs.Scopes.{knows, prefix_of};

    /// Whether a name is one of a key or a table here.
    fn knows(self, name: &str) -> bool
        ensures { result ≡ knows self name.now }
    {
        match self {
            Scope::Root => is_table(name),
            Scope::Search => is_search_key(name),
            Scope::Signal => name == "mode" || name == "codes",
            Scope::Bounds => is_bound(name),
            Scope::Galileo => name == "message" || name == "codes" || name == "offset",
            Scope::Motion => name == "speed" || name == "restart",
            Scope::Station => name == "place" || name == "age",
            Scope::Satellite { both } => is_satellite(name, both),
        }
    }

    /// What the printed name of a member begins with.
    fn prefix(self) -> &'static str
        ensures { result.now ≡ prefix_of self }
    {
        match self {
            Scope::Root => "",
            Scope::Search => "search.",
            Scope::Signal => "signal.",
            Scope::Bounds => "bounds.",
            Scope::Galileo => "galileo.",
            Scope::Motion => "motion.",
            Scope::Station => "station.",
            Scope::Satellite { .. } => "satellite.",
        }
    }
}

/// Whether a name is that of a table.
fn is_table(name: &str) -> bool
    ensures { result ≡ is_table name.now }
{
    name == "search"
        || name == "signal"
        || name == "bounds"
        || name == "galileo"
        || name == "motion"
        || name == "station"
        || name == "satellite"
}

/// Whether a name is that of a key of `search`.
fn is_search_key(name: &str) -> bool
    ensures { result ≡ knows Scope.Search name.now }
{
    name == "centre"
        || name == "half"
        || name == "outliers"
        || name == "bisections"
        || name == "width"
        || name == "max_age"
        || name == "renew"
        || name == "pairs"
        || name == "directions"
}

/// Whether a name is that of a key of `bounds`.
fn is_bound(name: &str) -> bool
    ensures { result ≡ knows Scope.Bounds name.now }
{
    name == "receiver"
        || name == "orbit_clock"
        || name == "ionosphere"
        || name == "troposphere"
        || name == "zenith"
        || name == "vertical"
}

/// Whether a name is one of G01 to G99, or where `both` systems are used of E01 to E99.
fn is_satellite(name: &str, both: bool) -> bool
    ensures { result ≡ is_satellite both name.now }
{
    let [system, tens, ones] = name.as_bytes() else {
        return false;
    };
    (*system == b'G' || (both && *system == b'E'))
        && tens.is_ascii_digit()
        && ones.is_ascii_digit()
        && !(*tens == b'0' && *ones == b'0')
}

/// The printed name of a member.
fn printed(alloc: Global, scope: Scope, name: &str) -> Result<String, AllocError>
    ensures { IfOk result (λ text. string_bytes text ≡ prefix_of scope ++ name.now) }
{
    let mut text = String::from_str(alloc, scope.prefix())?;
    text.push_str(name)?;
    Ok(text)
}

/// Adds the printed names of the members that aren't known.
fn add_unknown(
    alloc: Global,
    names: &mut Vec<String>,
    scope: Scope,
    members: &Table,
) -> Result<(), AllocError>
    ensures { OnOk result (map string_bytes names.new.items
        ≡ map string_bytes names.old.items
        ++ strangers (knows scope) (printed_in scope) (table_view members.now)) }
{
    for (name, _value) in members.iter() {
        if !scope.knows(name.as_str()) {
            names.push(printed(alloc, scope, name.as_str())?)?;
        }
    }
    Ok(())
}

/// Adds those of the members of a table of the tree.
fn add_unknown_in(
    alloc: Global,
    names: &mut Vec<String>,
    scope: Scope,
    tree: &Table,
    table: &str,
) -> Result<(), AllocError>
    ensures { OnOk result (map string_bytes names.new.items
        ≡ map string_bytes names.old.items
        ++ strangers (knows scope) (printed_in scope)
        (members_at table.now (table_view tree.now))) }
{
    let Some(value) = tree.get(table) else {
        return Ok(());
    };
    match value.as_table() {
        Some(members) => add_unknown(alloc, names, scope, members),
        None => Ok(()),
    }
}

/// The printed names of all members that aren't known.
fn unknown_names(alloc: Global, tree: &Table) -> Result<Vec<String>, AllocError>
    ensures { IfOk result (λ names. map string_bytes names.items ≡ unknown (table_view tree.now)) }
{
    let mut names = Vec::new(alloc);
    add_unknown(alloc, &mut names, Scope::Root, tree)?;
    add_unknown_in(alloc, &mut names, Scope::Search, tree, "search")?;
    add_unknown_in(alloc, &mut names, Scope::Signal, tree, "signal")?;
    add_unknown_in(alloc, &mut names, Scope::Bounds, tree, "bounds")?;
    add_unknown_in(alloc, &mut names, Scope::Galileo, tree, "galileo")?;
    add_unknown_in(alloc, &mut names, Scope::Motion, tree, "motion")?;
    add_unknown_in(alloc, &mut names, Scope::Station, tree, "station")?;
    let satellite = Scope::Satellite {
        both: has_galileo(tree),
    };
    add_unknown_in(alloc, &mut names, satellite, tree, "satellite")?;
    Ok(names)
}

/// The first of the names in byte order, where there is one.
fn first_name(names: &[String]) -> Option<&String>
    ensures { MatchOption result (names.now ≡ []) (λ name. Contains names.now name.now
        × All (λ other. is_lt (string_cmp other name.now) ≡ false) names.now) }
{
    names.iter().min()
}

/// Passes a tree whose names are all known, and tells of the first of the others.
pub fn check_names(alloc: Global, tree: &Table) -> Result<(), SettingsError>
    ensures known { OnOk result (unknown (table_view tree.now) ≡ []) }
    ensures fault { IfErr result (RefusesName (unknown (table_view tree.now))) }
{
    let names = unknown_names(alloc, tree)?;
    match first_name(&names) {
        Some(name) => Err(SettingsError::Refused(SettingsFault::new(
            Fault::Unknown,
            name.as_str(),
        ))),
        None => Ok(()),
    }
}
