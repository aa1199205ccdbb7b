//! The tests of one block against what the files say of its epoch.

ghost use Rattle.std.specs.Prelude.{◌≡◌, ◌+◌, ◌≤◌, ◌↔◌, length, IsTrue, IfOk, MatchOption};
ghost use Rattle.std.specs.Prelude.{Some};
ghost use Rattle.std.specs.List.{AllByRecursion};
ghost use Rattle.epoch_selection.specs.Searches.{search_in};
ghost use Rattle.grid_model.specs.Boxes.{grid_box};
ghost use Rattle.grid_model.specs.SearchBoxes.{IsSearchBox};
ghost use Rattle.sat_model.specs.Logs.{is_few, lines_in};
ghost use Rattle.sat_model.specs.Verdicts.{SuitsNumber};
ghost use Rattle.sat_rows.specs.OwnRows.{usable_in};
ghost use Rattle.paving_log.specs.Values.{body_value, block_of};
ghost use Rattle.paving_log_check.specs.Bases.{AreReady};
ghost use Rattle.paving_log_check.specs.Checked.{EpochAccepted, EpochRefused};
ghost use Rattle.paving_log_check.specs.Epochs.{Counts};
ghost use Rattle.paving_log_check.specs.OwnLines.{renewals_of};
ghost use Rattle.paving_log_check.specs.Forming.{BodyHolds, BodyBreaks, EpochHolds, EpochBreaks};

use crate::closing::closing_fault;
use crate::faults::{ROOT_DIFFERS, plain_fault};
use crate::renewals::RenewalTest;
use crate::sat_lines::{expected_lines, sats_fault};
use crate::verdict::Fault;
use gnss_model::Delays;
use grid_model::{Box3, NoMemory};
use paving_log::{Body, LogEpoch, Renewal, SATELLITE_DIFFERS, rows_among, rows_in};
use rinex_obs::ObsEpoch;
use sat_model::Rules;
use sat_rows::{EpochRows, RowSource};
use std::alloc::Global;

/// What is given for a block: the root, own lines over it, and the delays that are mapped.
#[derive(Clone, Copy)]
struct Given<'a> {
    root: &'a Box3,
    own: &'a EpochRows,
    delays: Delays,
}

/// Whether each renewal has so many rows.
fn have_as_many(renewals: &[Renewal], n: u32) -> bool
    ensures { IsTrue result ↔ AllByRecursion (λ r. length r.rows.items ≡ n) renewals.now }
{
    for renewal in renewals {
        if renewal.rows.len() != n as usize {
            return false;
        }
    }
    true
}

/// Whether each renewal of a block has as many rows as its first line says.
fn renews_each(epoch: &LogEpoch) -> bool
    ensures { IsTrue result ↔ AllByRecursion (λ new. length new.rows ≡ epoch.now.n)
        (renewals_of (block_of epoch.now).body) }
{
    match &epoch.body {
        Some(body) => have_as_many(&body.renewals, epoch.n),
        None => true,
    }
}

/// Whether the number of a block's first line is that of its rows, unless it is a block of few,
/// that of each renewal's rows, and that of the satellites that are usable.
fn has_counts(own: &EpochRows, epoch: &LogEpoch) -> bool
    requires { own.now.usable ≡ usable_in own.now.lines.items }
    ensures { IsTrue result ↔ Counts own.now.lines.items (block_of epoch.now) }
{
    (epoch.is_few() || rows_in(&epoch.sats) == epoch.n as usize)
        && renews_each(epoch)
        && epoch.n == own.usable
}

/// Whether two boxes are the same.
fn is_same_box(a: &Box3, b: &Box3) -> bool
    ensures { IsTrue result ↔ (grid_box a.now ≡ grid_box b.now) }
{
    a.lo.x == b.lo.x
        && a.lo.y == b.lo.y
        && a.lo.z == b.lo.z
        && a.hi.x == b.hi.x
        && a.hi.y == b.hi.y
        && a.hi.z == b.hi.z
}

/// The first line behind the satellites that fails a test, in a block with this body.
fn body_fault(
    alloc: Global,
    rules: &Rules,
    given: &Given<'_>,
    epoch: &LogEpoch,
    body: &Body,
) -> Result<Option<Fault>, NoMemory>
    requires numbered { epoch.now.line + lines_in (block_of epoch.now) ≤ 4000000001 }
    requires body { epoch.now.body ≡ Some body.now }
    requires ready { AreReady given.now.delays (grid_box given.now.root.now)
        given.now.own.now.bases.items }
    ensures { IfOk result (λ found. MatchOption found
        (BodyHolds given.now.delays rules.now (grid_box given.now.root.now)
        given.now.own.now.bases.items (block_of epoch.now) (body_value body.now))
        (λ fault. BodyBreaks given.now.delays rules.now (grid_box given.now.root.now)
        given.now.own.now.bases.items (block_of epoch.now) (body_value body.now) fault)) }
{
    if !is_same_box(&body.root, given.root) {
        let line = epoch.line + 1 + epoch.sats.len() as u32;
        return Ok(Some(plain_fault(line, ROOT_DIFFERS)));
    }
    let rows = rows_among(alloc, &epoch.sats)?;
    let test = RenewalTest {
        root: given.root,
        firsts: &rows,
        delays: given.delays,
        bases: &given.own.bases,
    };
    let line = epoch.line + 2 + epoch.sats.len() as u32;
    closing_fault(alloc, line, &test, rules, body)
}

/// The first line of a block that fails a test against own lines of its epoch.
fn epoch_fault(
    alloc: Global,
    rules: &Rules,
    given: &Given<'_>,
    epoch: &LogEpoch,
) -> Result<Option<Fault>, NoMemory>
    requires numbered { epoch.now.line + lines_in (block_of epoch.now) ≤ 4000000001 }
    requires usable { given.now.own.now.usable ≡ usable_in given.now.own.now.lines.items }
    requires ready { AreReady given.now.delays (grid_box given.now.root.now)
        given.now.own.now.bases.items }
    ensures { IfOk result (λ found. MatchOption found
        (EpochHolds given.now.delays rules.now (grid_box given.now.root.now)
        given.now.own.now.lines.items given.now.own.now.bases.items (block_of epoch.now))
        (λ fault. EpochBreaks given.now.delays rules.now (grid_box given.now.root.now)
        given.now.own.now.lines.items given.now.own.now.bases.items (block_of epoch.now) fault)) }
{
    if !has_counts(given.own, epoch) {
        return Ok(Some(plain_fault(epoch.line, SATELLITE_DIFFERS)));
    }
    let lines = expected_lines(alloc, epoch.is_few(), &given.own.lines)?;
    if let Some(fault) = sats_fault(epoch.line + 1, given.delays, &epoch.sats, &lines) {
        return Ok(Some(fault));
    }
    if epoch.sats.len() < lines.len() {
        let line = epoch.line + 1 + epoch.sats.len() as u32;
        return Ok(Some(plain_fault(line, SATELLITE_DIFFERS)));
    }
    match &epoch.body {
        Some(body) => body_fault(alloc, rules, given, epoch, body),
        None => Ok(None),
    }
}

/// The first line of a block that fails a test against what the source says of its epoch, and the
/// least number of one on it: all tests but those of the rules and of the block's place among the
/// epochs (50 and 51).
pub fn check_epoch<S: RowSource>(
    alloc: Global,
    source: &S,
    seen: &ObsEpoch,
    rules: &Rules,
    root: &Box3,
    epoch: &LogEpoch,
) -> Result<Option<Fault>, NoMemory>
    requires numbered { epoch.now.line + lines_in (block_of epoch.now) ≤ 4000000001 }
    requires suits { SuitsNumber (is_few (block_of epoch.now)) rules.now.outliers epoch.now.n }
    requires root { IsSearchBox (grid_box root.now) }
    ensures { IfOk result (λ found. MatchOption found
        (EpochAccepted (S.meaning source.now) rules.now (search_in (grid_box root.now) seen.now)
        (block_of epoch.now))
        (λ fault. EpochRefused (S.meaning source.now) rules.now
        (search_in (grid_box root.now) seen.now)
        (block_of epoch.now) fault)) }
{
    let own = source.lines(alloc, seen, root)?;
    let given = Given {
        root,
        own: &own,
        delays: source.delays(),
    };
    epoch_fault(alloc, rules, &given, epoch)
}
