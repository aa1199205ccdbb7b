//! A text of the second form.

ghost use Rattle.std.specs.Prelude.{◌≡◌, ℕ, ◌+◌, ◌<◌, ◌≤◌, List, [], ◌∷◌, ◌++◌, length, map, IfOk};
ghost use Rattle.std.specs.Prelude.{IfErr};
ghost use Rattle.zone_guard.specs.Planes.{plane_values};
ghost use Rattle.zone_guard.specs.Told.{IsToldIn};
ghost use Rattle.zone_guard.specs.Text.{lines};
ghost use Rattle.zone_guard.specs.Watched.{Side, form_lines, watch_lines};
ghost use Rattle.zone_guard.specs.WatchLeads.{Leads, later_lines, form_kind};
ghost use Rattle.zone_guard.specs.WatchText.{AreWatchLines, FailsAt, owed_for};
ghost use Rattle.zone_guard.specs.WatchValues.{form_value, kind_value, watch_names, watch_values};

use crate::names::is_name_taken;
use crate::opening::OpeningKind;
use crate::openings::{opening_of, side_of};
use crate::pieces::Group;
use crate::planes::HalfSpace;
use crate::reading::line;
use crate::watch::{Form, Watch};
use crate::zone::ZoneError;
use std::alloc::Global;

/// The sides of a prism or a group, so many, from the line of this number on, and what stands behind
/// them.
fn sides_in(
    alloc: Global,
    text: &[u8],
    first: u32,
    count: u32,
) -> Result<(Vec<HalfSpace>, &[u8]), ZoneError>
    requires { first + length text.now ≤ 4000000002 }
    ensures count { IfOk result (λ found. length found.0.items ≡ count) }
    ensures value { IfOk result (λ found. (names : List (List ℕ))
        → Leads names count first (lines text.now) (map Side (plane_values found.0.items)) names 0
        (first + count) (lines found.1.now)) }
    ensures shorter { IfOk result (λ found. count + length found.1.now ≤ length text.now) }
    ensures fault { IfErr result (IsToldIn (λ line. (names : List (List ℕ))
        → FailsAt names count first (lines text.now) line)) }
{
    let mut sides: Vec<HalfSpace> = Vec::new(alloc);
    let mut left = text;
    let mut number = first;
    'sides: while sides.len() < count as usize {
        let Some((here, behind)) = line(left) else {
            return Err(ZoneError::BadZones { line: number });
        };
        let Some(side) = side_of(here) else {
            return Err(ZoneError::BadZones { line: number });
        };
        sides.push(side)?;
        left = behind;
        number += 1;
    }
    Ok((sides, left))
}

/// What a line with a name is of, and what stands behind its last line. The number is that of the
/// line behind the first, and becomes that of the line behind the last.
fn form_of<'a>(
    alloc: Global,
    kind: &OpeningKind,
    text: &'a [u8],
    number: u32,
) -> Result<(Form, &'a [u8], u32), ZoneError>
    requires { number + length text.now ≤ 4000000002 }
    ensures kind { IfOk result (λ found. form_kind (form_value found.0) ≡ kind_value kind.now) }
    ensures value { IfOk result (λ found. (names : List (List ℕ))
        → Leads names (owed_for (kind_value kind.now)) number (lines text.now) (later_lines
        (form_value found.0)) names 0 found.2 (lines found.1.now)) }
    ensures shorter { IfOk result (λ found. found.2 + length found.1.now ≤ number + length
        text.now) }
    ensures less { IfOk result (λ found. length found.1.now ≤ length text.now) }
    ensures fault { IfErr result (IsToldIn (λ line. (names : List (List ℕ))
        → FailsAt names (owed_for (kind_value kind.now)) number (lines text.now) line)) }
{
    match kind {
        OpeningKind::Box(part) => Ok((Form::Box(*part), text, number)),
        OpeningKind::Reach(along) => Ok((Form::Reach(*along), text, number)),
        OpeningKind::Prism(count) => {
            let (sides, left) = sides_in(alloc, text, number, *count)?;
            Ok((Form::Prism(sides), left, number + *count))
        }
        OpeningKind::Group(sizes) => {
            let count = sizes.pieces * sizes.each;
            let (sides, left) = sides_in(alloc, text, number, count)?;
            let group = Group {
                sizes: *sizes,
                sides,
            };
            Ok((Form::Group(group), left, number + count))
        }
    }
}

/// The zone or direction at the front of a text whose first line has this number, with what stands
/// behind it and the number of the line there. Its name is to be none of those before.
fn next_watch<'a>(
    alloc: Global,
    before: &[Watch],
    text: &'a [u8],
    number: u32,
) -> Result<(Watch, &'a [u8], u32), ZoneError>
    requires some { 0 < length text.now }
    requires room { number + length text.now ≤ 4000000002 }
    ensures value { IfOk result (λ found. Leads (watch_names before.now) 0 number (lines text.now)
        (form_lines found.0.name.bytes (form_value found.0.form))
        (watch_names before.now ++ found.0.name.bytes ∷ []) 0 found.2 (lines found.1.now)) }
    ensures room { IfOk result (λ found. found.2 + length found.1.now ≤ number + length text.now) }
    ensures shorter { IfOk result (λ found. length found.1.now < length text.now) }
    ensures fault { IfErr result (IsToldIn (FailsAt (watch_names before.now) 0 number
        (lines text.now))) }
{
    let Some((here, behind)) = line(text) else {
        return Err(ZoneError::BadZones { line: number });
    };
    let Some(opening) = opening_of(here) else {
        return Err(ZoneError::BadZones { line: number });
    };
    if is_name_taken(before, &opening.name) {
        return Err(ZoneError::BadZones { line: number });
    }
    let (form, left, after) = form_of(alloc, &opening.kind, behind, number + 1)?;
    Ok((
        Watch {
            name: opening.name,
            form,
        },
        left,
        after,
    ))
}

/// The zones and directions whose lines these are, the first of which is line 2.
pub fn watches_in(alloc: Global, text: &[u8]) -> Result<Vec<Watch>, ZoneError>
    requires { length text.now ≤ 4000000000 }
    ensures value { IfOk result (λ watches. AreWatchLines [] 0 (lines text.now) (watch_lines
        (watch_values watches.items))) }
    ensures fault { IfErr result (IsToldIn (FailsAt [] 0 2 (lines text.now))) }
{
    let mut watches: Vec<Watch> = Vec::new(alloc);
    let mut left = text;
    let mut number: u32 = 2;
    'watches: while !left.is_empty() {
        let (watch, behind, after) = next_watch(alloc, &watches, left, number)?;
        watches.push(watch)?;
        left = behind;
        number = after;
    }
    Ok(watches)
}
