//! What is declared for single satellites.

ghost use Rattle.std.specs.Prelude.{◌≡◌, ◌≤◌, ◌<◌, ◌+◌, [], ◌∷◌, ◌++◌, None, Ok, option_map, IfSome, IfOk, IfErr, OnOk};
ghost use Rattle.std.specs.List.{cons_option};
ghost use Rattle.sat_model.specs.Relaxed.{ends};
ghost use Rattle.toml.specs.View.{table_view};
ghost use Rattle.error_bounds.specs.Keys.{satellites, satellite, satellite_name, sats_from, galileo_sats, has_galileo, own_tests, satellite_tests, satellite_tests_in, optional, test_optional, fault_in, first_found};
ghost use Rattle.error_bounds.specs.Reading.{AreListed, TellsFirst, RefusesTests, with_ends};
ghost use Rattle.error_bounds.specs.Sizes.{IsDeclared};
ghost use Rattle.error_bounds.specs.Texts.{own_extra, extra_in, extra_of};

use crate::fault::{Fault, SettingsError, SettingsFault};
use crate::form::{DECLARED, Form};
use crate::galileo_table::has_galileo;
use crate::key::fault_at;
use arrayvec::ArrayString;
use gnss_model::Sat;
use grid_model::Span;
use std::alloc::Global;
use toml::Table;

/// The name of a satellite.
fn satellite_name(sat: Sat) -> ArrayString<3>
    requires letter { sat.system < 128 }
    requires number { sat.number ≤ 99 }
    ensures { result.bytes ≡ satellite_name sat }
{
    let mut name = ArrayString::new();
    name.push(sat.system as char);
    name.push((b'0' + sat.number / 10) as char);
    name.push((b'0' + sat.number % 10) as char);
    name
}

/// The span of errors of one satellite, where it has one.
fn own_span(members: &Table, sat: Sat) -> Result<Option<Span>, SettingsFault>
    requires letter { sat.system < 128 }
    requires number { sat.number ≤ 99 }
    ensures span { IfOk result (λ span.
        optional (satellite sat) (table_view members.now) ≡ Ok (option_map ends span)) }
    ensures within { IfOk result (λ span. IfSome span IsDeclared) }
    ensures fault { IfErr result
        (TellsFirst (test_optional (table_view members.now) (satellite sat) ∷ [])) }
{
    let name = satellite_name(sat);
    let Some(value) = members.get(name.as_str()) else {
        return Ok(None);
    };
    match DECLARED.read(value) {
        Ok(span) => Ok(Some(span)),
        Err(fault) => Err(fault_at(fault, "satellite", name.as_str())),
    }
}

/// Adds the span of one satellite, where it has one.
fn add_own_span(
    members: &Table,
    sat: Sat,
    spans: &mut Vec<(Sat, Span)>,
) -> Result<(), SettingsError>
    requires letter { sat.system < 128 }
    requires number { sat.number ≤ 99 }
    ensures faultless { OnOk result
        (fault_in (optional (satellite sat) (table_view members.now)) ≡ None) }
    ensures extra { OnOk result (with_ends spans.new.items
        ≡ with_ends spans.old.items
        ++ cons_option (extra_of sat (optional (satellite sat) (table_view members.now))) []) }
    ensures listed { OnOk result (AreListed sat spans.old.items
        → AreListed (record { system = sat.system; number = sat.number + 1 }) spans.new.items) }
    ensures fault { IfErr result
        (RefusesTests (test_optional (table_view members.now) (satellite sat) ∷ [])) }
{
    match own_span(members, sat) {
        Ok(Some(span)) => match spans.push((sat, span)) {
            Ok(()) => Ok(()),
            Err(_) => Err(SettingsError::NoMemory),
        },
        Ok(None) => Ok(()),
        Err(fault) => Err(SettingsError::Refused(fault)),
    }
}

/// Adds the spans of a system's satellites in the table of the satellites.
fn add_system_spans(
    members: &Table,
    system: u8,
    spans: &mut Vec<(Sat, Span)>,
) -> Result<(), SettingsError>
    requires letter { system < 128 }
    ensures none { OnOk result
        (first_found (own_tests (table_view members.now) (sats_from system 1)) ≡ None) }
    ensures extra { OnOk result (with_ends spans.new.items
        ≡ with_ends spans.old.items ++ own_extra (table_view members.now) (sats_from system 1)) }
    ensures listed { OnOk result
        (AreListed (record { system = system; number = 1 }) spans.old.items
        → AreListed (record { system = system; number = 100 }) spans.new.items) }
    ensures fault { IfErr result
        (RefusesTests (own_tests (table_view members.now) (sats_from system 1))) }
{
    'numbers: for number in 1..100 {
        match add_own_span(members, Sat { system, number }, spans) {
            Ok(()) => {}
            Err(error) => return Err(error),
        }
    }
    Ok(())
}

/// The spans of Galileo satellites in the table of the satellites, where `both` systems are used.
fn galileo_spans(
    alloc: Global,
    members: &Table,
    both: bool,
) -> Result<Vec<(Sat, Span)>, SettingsError>
    ensures none { OnOk result
        (first_found (own_tests (table_view members.now) (galileo_sats both)) ≡ None) }
    ensures extra { IfOk result (λ extra.
        with_ends extra.items ≡ own_extra (table_view members.now) (galileo_sats both)) }
    ensures listed { IfOk result (λ extra.
        AreListed (record { system = 71; number = 1 }) extra.items) }
    ensures fault { IfErr result
        (RefusesTests (own_tests (table_view members.now) (galileo_sats both))) }
{
    let mut spans = Vec::new(alloc);
    if !both {
        return Ok(spans);
    }
    match add_system_spans(members, b'E', &mut spans) {
        Ok(()) => Ok(spans),
        Err(error) => Err(error),
    }
}

/// The spans in the table of the satellites.
fn own_spans(alloc: Global, members: &Table, both: bool) -> Result<Vec<(Sat, Span)>, SettingsError>
    ensures none { OnOk result
        (first_found (satellite_tests_in both (Ok (table_view members.now))) ≡ None) }
    ensures extra { IfOk result (λ extra.
        with_ends extra.items ≡ extra_in both (Ok (table_view members.now))) }
    ensures listed { IfOk result (λ extra.
        AreListed (record { system = 71; number = 100 }) extra.items) }
    ensures fault { IfErr result
        (RefusesTests (satellite_tests_in both (Ok (table_view members.now)))) }
{
    let mut spans = match galileo_spans(alloc, members, both) {
        Ok(spans) => spans,
        Err(error) => return Err(error),
    };
    match add_system_spans(members, b'G', &mut spans) {
        Ok(()) => Ok(spans),
        Err(error) => Err(error),
    }
}

/// The spans of single satellites, in the order of their names.
pub fn read_satellites(alloc: Global, tree: &Table) -> Result<Vec<(Sat, Span)>, SettingsError>
    ensures none { OnOk result (first_found (satellite_tests (table_view tree.now)) ≡ None) }
    ensures extra { IfOk result (λ extra. with_ends extra.items
        ≡ extra_in (has_galileo (table_view tree.now)) (satellites (table_view tree.now))) }
    ensures listed { IfOk result (λ extra.
        AreListed (record { system = 71; number = 100 }) extra.items) }
    ensures fault { IfErr result (RefusesTests (satellite_tests (table_view tree.now))) }
{
    let Some(value) = tree.get("satellite") else {
        return Ok(Vec::new(alloc));
    };
    match value.as_table() {
        Some(members) => own_spans(alloc, members, has_galileo(tree)),
        None => Err(SettingsError::Refused(SettingsFault::new(Fault::WrongKind, "satellite"))),
    }
}
