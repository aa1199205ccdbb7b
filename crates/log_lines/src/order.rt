//! What may come where.

ghost use Rattle.std.specs.Prelude.{◌≡◌, Some, None, IfSome, IfNone};
ghost use Rattle.log_lines.specs.declared.line.LineName.{LineName};
ghost use Rattle.log_lines.specs.declared.line.Place.TheVariants as places;
ghost use Rattle.log_lines.specs.Lines.{spelled};
ghost use Rattle.log_lines.specs.Order.{has_version, form_of, may_come, next, place_behind_root};
ghost use Rattle.log_lines.specs.Order.{place_behind_done};

use crate::line::{Form, Kind, LineName, LogForm, LogLine, Place};
use sat_model::SatEntry;
use step_lines::StepName;

/// The word's name, where it is a first word of some line.
pub fn name_from(word: &[u8]) -> Option<LineName>
    ensures found { IfSome result (λ name. word.now ≡ spelled name) }
    ensures none { IfNone result ((name : LineName) → word.now ≡ spelled name → ⊥) }
{
    match word {
        b"gpscover" => Some(LineName::Gpscover),
        b"rules" => Some(LineName::Rules),
        b"few" => Some(LineName::Few),
        b"epoch" => Some(LineName::Epoch),
        b"sat" => Some(LineName::Sat),
        b"skip" => Some(LineName::Skip),
        b"root" => Some(LineName::Root),
        b"cut" => Some(LineName::Step(StepName::Cut)),
        b"split" => Some(LineName::Step(StepName::Split)),
        b"out" => Some(LineName::Step(StepName::Out)),
        b"in" => Some(LineName::Step(StepName::In)),
        b"edge" => Some(LineName::Step(StepName::Edge)),
        b"renew" => Some(LineName::Renew),
        b"done" => Some(LineName::Done),
        b"bound" => Some(LineName::Bound),
        b"by" => Some(LineName::By),
        _ => None,
    }
}

/// Whether a line with this first word may come.
pub fn may_come(place: Place, name: LineName) -> bool
    ensures { result ≡ may_come place name }
{
    match (place, name) {
        (Place::First(_), LineName::Gpscover)
        | (Place::Second(_), LineName::Rules)
        | (Place::Between(_) | Place::Few(_, _), LineName::Epoch | LineName::Few)
        | (Place::Satellites(_, _, _), LineName::Root) => true,
        (Place::Few(_, count), LineName::Skip) => count < 64,
        (Place::Satellites(_, _, count), LineName::Sat | LineName::Skip) => count < 64,
        (Place::Steps(_, _, left), LineName::Step(_) | LineName::Done) => left == 0,
        (Place::Steps(form, _, left), LineName::Renew) => form.renews && left == 0,
        (Place::Steps(_, _, left), LineName::Sat) => 0 < left,
        (Place::Bounds(_, left), LineName::Bound | LineName::Epoch | LineName::Few) => left == 0,
        (Place::Bounds(_, left), LineName::By) => 0 < left,
        _ => false,
    }
}

/// Whether rows alone, or a log, may have the version.
fn has_version(kind: Kind, version: u8) -> bool
    ensures { result ≡ has_version kind version }
{
    match kind {
        Kind::Log => true,
        Kind::Rows => version == 1 || version == 3,
    }
}

/// Which lines a text of the version has.
pub fn form_of(kind: Kind, version: u8) -> Form
    ensures { result ≡ form_of kind version }
{
    match kind {
        Kind::Log => Form::Log(LogForm {
            renews: 1 < version,
            bounds: 3 < version,
        }),
        Kind::Rows => Form::Rows,
    }
}

/// The place behind the line of a root.
fn behind_root(form: Form, n: u32) -> Place
    ensures { result ≡ place_behind_root form n }
{
    match form {
        Form::Log(form) => Place::Steps(form, n, 0),
        Form::Rows => Place::Between(Form::Rows),
    }
}

/// The place behind the number of splits.
fn behind_done(form: LogForm) -> Place
    ensures { result ≡ place_behind_done form }
{
    if form.bounds {
        Place::Bounds(form, 0)
    } else {
        Place::Between(Form::Log(form))
    }
}

/// The place behind a line behind the root of a log, where the line may come.
fn behind_steps(form: LogForm, n: u32, left: u32, line: &LogLine) -> Option<Place>
    ensures { result ≡ next (places.Steps form n left) line.now }
{
    match line {
        LogLine::Step(_) if left == 0 => Some(Place::Steps(form, n, 0)),
        LogLine::Renew(_) if form.renews && left == 0 => Some(Place::Steps(form, n, n)),
        LogLine::Sat(SatEntry::Row(_)) if 0 < left => Some(Place::Steps(form, n, left - 1)),
        LogLine::Done(_) if left == 0 => Some(behind_done(form)),
        _ => None,
    }
}

/// The place behind a line behind the splits of a log with bounds, where the line may come.
fn behind_bounds(form: LogForm, left: u32, line: &LogLine) -> Option<Place>
    ensures { result ≡ next (places.Bounds form left) line.now }
{
    match line {
        LogLine::Bound(_, sums) if left == 0 => Some(Place::Bounds(form, u32::from(*sums))),
        LogLine::By(_) if 0 < left => Some(Place::Bounds(form, left - 1)),
        LogLine::Epoch(header) if left == 0 => {
            Some(Place::Satellites(Form::Log(form), header.n, 0))
        }
        LogLine::Few(_) if left == 0 => Some(Place::Few(Form::Log(form), 0)),
        _ => None,
    }
}

/// The place behind a line, where the line may come.
pub fn place_behind(place: Place, line: &LogLine) -> Option<Place>
    ensures { result ≡ next place line.now }
{
    match (place, line) {
        (Place::First(kind), LogLine::Version(version)) if has_version(kind, *version) => {
            Some(Place::Second(form_of(kind, *version)))
        }
        (Place::Second(form), LogLine::Rules(_)) => Some(Place::Between(form)),
        (Place::Between(form) | Place::Few(form, _), LogLine::Epoch(header)) => {
            Some(Place::Satellites(form, header.n, 0))
        }
        (Place::Between(form) | Place::Few(form, _), LogLine::Few(_)) => Some(Place::Few(form, 0)),
        (Place::Few(form, count), LogLine::Sat(SatEntry::Skipped { .. })) if count < 64 => {
            Some(Place::Few(form, count + 1))
        }
        (Place::Satellites(form, n, count), LogLine::Sat(_)) if count < 64 => {
            Some(Place::Satellites(form, n, count + 1))
        }
        (Place::Satellites(form, n, _), LogLine::Root(_)) => Some(behind_root(form, n)),
        (Place::Steps(form, n, left), _) => behind_steps(form, n, left, line),
        (Place::Bounds(form, left), _) => behind_bounds(form, left, line),
        _ => None,
    }
}
