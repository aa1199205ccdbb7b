//! The tests of one block of a log.

ghost use Rattle.std.specs.Prelude.{◌≡◌, ◌+◌, ◌≤◌, ℕ, length, IfOk, MatchOption, Some};
ghost use Rattle.sat_model.specs.declared.rules.Rules.{Rules};
ghost use Rattle.sat_model.specs.Cover.{kept_in};
ghost use Rattle.sat_model.specs.Logs.{lines_in};
ghost use Rattle.sat_model.specs.Renewals.{no_tests};
ghost use Rattle.sat_model.specs.Verdicts.{BodyPasses, BodyFailsBy, BlockPasses, BlockFails};
ghost use Rattle.paving_log.specs.Values.{body_value, block_of};
ghost use Rattle.paving_log_check.specs.Answers.{ShowsNoSpans};

use crate::closing::closing_fault;
use crate::faults::plain_fault;
use crate::renewals::RenewalTest;
use crate::verdict::Fault;
use gnss_model::Delays;
use grid_model::NoMemory;
use paving_log::{Body, LogEpoch, own_fault, rows_among};
use sat_model::Rules;
use std::alloc::Global;

/// The first line of what stands behind the satellites that fails a test, its rows taken as given.
fn body_fault(
    alloc: Global,
    rules: &Rules,
    epoch: &LogEpoch,
    body: &Body,
) -> Result<Option<Fault>, NoMemory>
    requires numbered { epoch.now.line + lines_in (block_of epoch.now) ≤ 4000000001 }
    requires body { epoch.now.body ≡ Some body.now }
    ensures { IfOk result (λ found. MatchOption found
        (BodyPasses rules.now (block_of epoch.now) (Some (body_value body.now)))
        (λ fault. (k : ℕ) × BodyFailsBy no_tests rules.now (block_of epoch.now)
        (body_value body.now) k fault.number × ShowsNoSpans fault
        × (fault.line ≡ epoch.now.line + 2 + length epoch.now.sats.items + k))) }
{
    let rows = rows_among(alloc, &epoch.sats)?;
    let given = RenewalTest {
        root: &body.root,
        firsts: &rows,
        delays: Delays {
            zenith: None,
            vertical: None,
        },
        bases: &[],
    };
    let line = epoch.line + 2 + epoch.sats.len() as u32;
    closing_fault(alloc, line, &given, rules, body)
}

/// The first line of the block that fails a test, its rows taken as given.
pub(crate) fn block_fault(
    alloc: Global,
    rules: &Rules,
    before: Option<u32>,
    epoch: &LogEpoch,
) -> Result<Option<Fault>, NoMemory>
    requires { epoch.now.line + lines_in (block_of epoch.now) ≤ 4000000001 }
    ensures { IfOk result (λ found. MatchOption found
        (BlockPasses rules.now before (block_of epoch.now))
        (λ fault. BlockFails rules.now before (block_of epoch.now) fault.line fault.number
        × ShowsNoSpans fault)) }
{
    if let Some(fault) = own_fault(rules, before, epoch) {
        let line = epoch.line + fault.offset as u32;
        return Ok(Some(plain_fault(line, fault.number)));
    }
    match &epoch.body {
        Some(body) => body_fault(alloc, rules, epoch, body),
        None => Ok(None),
    }
}

/// How many boxes the steps of a block close inside or at the edge.
pub fn kept_boxes(epoch: &LogEpoch) -> u64
    ensures value { (rules : Rules)
        → BodyPasses rules (block_of epoch.now) (block_of epoch.now).body
        → result ≡ kept_in (block_of epoch.now).body }
    ensures bound { result ≤ lines_in (block_of epoch.now) }
{
    match &epoch.body {
        Some(body) => body.steps.kept() as u64,
        None => 0,
    }
}
