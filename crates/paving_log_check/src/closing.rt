//! What stands behind the root of a block: the steps and renewals, the splits, and the bounds.

ghost use Rattle.std.specs.Prelude.{◌≡◌, ℕ, ◌+◌, ◌≤◌, length, IfOk, MatchOption};
ghost use Rattle.grid_model.specs.Boxes.{grid_box};
ghost use Rattle.sat_model.specs.Bounds.{lines_of_bounds};
ghost use Rattle.sat_model.specs.Events.{lines_of_all};
ghost use Rattle.paving_log.specs.Values.{body_value};
ghost use Rattle.paving_log_check.specs.Bases.{AreReady};
ghost use Rattle.paving_log_check.specs.Forming.{ClosingHolds, ClosingBreaks};

use crate::bounds::bounds_fault;
use crate::counts::event_lines;
use crate::events::events_fault;
use crate::renewals::RenewalTest;
use crate::verdict::Fault;
use grid_model::NoMemory;
use paving_log::Body;
use sat_model::Rules;
use std::alloc::Global;

/// The first of the lines behind the root that fails a test, where `line` is the number of the first
/// of them.
pub(crate) fn closing_fault(
    alloc: Global,
    line: u32,
    given: &RenewalTest<'_>,
    rules: &Rules,
    body: &Body,
) -> Result<Option<Fault>, NoMemory>
    requires numbered { line + lines_of_all (body_value body.now).events + 1
        + lines_of_bounds (body_value body.now).bounds ≤ 4000000001 }
    requires rows { length given.now.firsts.now ≤ 64 }
    requires ready { AreReady given.now.delays (grid_box given.now.root.now) given.now.bases.now }
    ensures { IfOk result (λ found. MatchOption found
        (ClosingHolds given.now.delays (grid_box given.now.root.now) given.now.firsts.now
        given.now.bases.now rules.now (body_value body.now))
        (λ fault. (k : ℕ) × ClosingBreaks given.now.delays (grid_box given.now.root.now)
        given.now.firsts.now given.now.bases.now rules.now (body_value body.now) k fault
        × (fault.line ≡ line + k))) }
{
    if let Some(fault) = events_fault(alloc, line, given, rules, body)? {
        return Ok(Some(fault));
    }
    let behind = line + event_lines(body) + 1;
    bounds_fault(alloc, behind, given.root, given.firsts, rules, body)
}
