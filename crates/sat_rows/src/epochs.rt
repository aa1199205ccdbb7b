//! The rows of an epoch.

ghost use Rattle.std.specs.Prelude.{◌≡◌, ◌++◌, IfOk, OnOk};
ghost use Rattle.grid_model.specs.Boxes.{grid_box};
ghost use Rattle.grid_model.specs.SearchBoxes.{IsSearchBox};
ghost use Rattle.sat_rows.specs.Bases.{base_list, HasBase, AreBasesOf};
ghost use Rattle.sat_rows.specs.OwnRows.{IsOwnLine, IsSmallLine, AreLinesOf, AreSmall, usable_in};
ghost use Rattle.sat_rows.specs.OwnRows.{usable_line};
ghost use Rattle.sat_rows.specs.Sources.{gps_meaning, meaning_by};

use crate::bases::Base;
use crate::lines::{EpochRows, SatLine};
use crate::receivers::ReceiverSats;
use crate::sat_bases::SatBases;
use crate::spans::renewed;
use error_bounds::Settings;
use gnss_model::GalileoUse;
use grid_model::{Box3, NoMemory};
use rinex_nav::Nav;
use rinex_obs::{ObsEpoch, SatObs};
use std::alloc::Global;

/// One line for each satellite of the epoch, in order: a row that holds whatever is allowed of it
/// at the points of the root, or why it isn't usable.
pub fn rows_of<S: SatBases>(
    alloc: Global,
    epoch: &ObsEpoch,
    root: &Box3,
    source: &S,
) -> Result<EpochRows, NoMemory>
    requires root { IsSearchBox (grid_box root.now) }
    ensures lines { IfOk result (λ rows.
        AreLinesOf (S.meaning source.now) (grid_box root.now) epoch.now rows.lines.items) }
    ensures small { IfOk result (λ rows. AreSmall rows.lines.items) }
    ensures usable { IfOk result (λ rows. rows.usable ≡ usable_in rows.lines.items) }
    ensures bases { IfOk result (λ rows. AreBasesOf (S.meaning source.now) (grid_box root.now)
        epoch.now.tag epoch.now.sats.items rows.lines.items rows.bases.items) }
{
    let mut lines = Vec::new(alloc);
    let mut bases = Vec::new(alloc);
    let mut usable = 0;
    for seen in &epoch.sats {
        let formed = line_of(source, seen, epoch, root);
        usable += count(&formed.line);
        push_base(&mut bases, formed.base)?;
        lines.push(formed.line)?;
    }
    Ok(EpochRows {
        lines,
        usable,
        bases,
    })
}

/// The rows by what a receiver alone observed: they hold whatever the equations allow of its
/// satellites. Those of Galileo are used where its codes are given.
pub fn rows_by(
    alloc: Global,
    epoch: &ObsEpoch,
    nav: &Nav,
    settings: &Settings,
    root: &Box3,
    galileo: &Option<GalileoUse>,
) -> Result<EpochRows, NoMemory>
    requires root { IsSearchBox (grid_box root.now) }
    ensures lines { IfOk result (λ rows.
        AreLinesOf (meaning_by galileo.now nav.now settings.now) (grid_box root.now) epoch.now
        rows.lines.items) }
    ensures small { IfOk result (λ rows. AreSmall rows.lines.items) }
    ensures usable { IfOk result (λ rows. rows.usable ≡ usable_in rows.lines.items) }
    ensures bases { IfOk result (λ rows. AreBasesOf (meaning_by galileo.now nav.now settings.now)
        (grid_box root.now) epoch.now.tag epoch.now.sats.items rows.lines.items
        rows.bases.items) }
{
    let source = ReceiverSats {
        nav,
        settings,
        galileo: *galileo,
    };
    rows_of(alloc, epoch, root, &source)
}

/// The same with the satellites of GPS alone.
pub fn rows(
    alloc: Global,
    epoch: &ObsEpoch,
    nav: &Nav,
    settings: &Settings,
    root: &Box3,
) -> Result<EpochRows, NoMemory>
    requires root { IsSearchBox (grid_box root.now) }
    ensures lines { IfOk result (λ rows.
        AreLinesOf (gps_meaning nav.now settings.now) (grid_box root.now) epoch.now
        rows.lines.items) }
    ensures small { IfOk result (λ rows. AreSmall rows.lines.items) }
    ensures usable { IfOk result (λ rows. rows.usable ≡ usable_in rows.lines.items) }
    ensures bases { IfOk result (λ rows. AreBasesOf (gps_meaning nav.now settings.now)
        (grid_box root.now) epoch.now.tag epoch.now.sats.items rows.lines.items
        rows.bases.items) }
{
    rows_by(alloc, epoch, nav, settings, root, &None)
}

/// A satellite's line, and the base of a usable one.
#[derive(Clone, Copy)]
struct Formed {
    line: SatLine,
    base: Option<Base>,
}

/// Puts a base behind the others, where there is one.
fn push_base(bases: &mut Vec<Base>, base: Option<Base>) -> Result<(), NoMemory>
    ensures { OnOk result (bases.new.items ≡ bases.old.items ++ base_list base) }
{
    match base {
        Some(base) => Ok(bases.push(base)?),
        None => Ok(()),
    }
}

/// The line of a satellite of the epoch.
fn line_of<S: SatBases>(source: &S, seen: &SatObs, epoch: &ObsEpoch, root: &Box3) -> Formed
    requires root { IsSearchBox (grid_box root.now) }
    ensures own { IsOwnLine (S.meaning source.now) (grid_box root.now) epoch.now.tag seen.now
        result.line }
    ensures small { IsSmallLine result.line }
    ensures base { HasBase (S.meaning source.now) (grid_box root.now) epoch.now.tag seen.now
        result.line result.base }
{
    match source.base_in(seen, epoch, root) {
        Ok(base) => Formed {
            line: SatLine::Usable(renewed(&base, source.delays(), root)),
            base: Some(base),
        },
        Err(skip) => Formed {
            line: SatLine::Skipped {
                sat: seen.sat,
                skip,
            },
            base: None,
        },
    }
}

/// 1 for a usable satellite, else 0.
fn count(line: &SatLine) -> u32
    ensures { result ≡ usable_line line.now }
{
    match line {
        SatLine::Usable(_) => 1,
        SatLine::Skipped { .. } => 0,
    }
}
