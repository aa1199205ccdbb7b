//! What stands behind the root of a block, in one pass over its live boxes.

ghost use Rattle.std.specs.Prelude.{◌≡◌, ℕ, ◌+◌, ◌<◌, ◌≤◌, ◌^◌, length, take, drop, IfOk, IfNone};
ghost use Rattle.std.specs.Prelude.{MatchOption};
ghost use Rattle.grid_model.specs.Boxes.{grid_box};
ghost use Rattle.step_lines.specs.Steps.{steps_left};
ghost use Rattle.sat_model.specs.Events.{lines_of_all};
ghost use Rattle.paving_log.specs.Values.{body_value};
ghost use Rattle.paving_log_check.specs.Answers.{ShowsNoSpans};
ghost use Rattle.paving_log_check.specs.Bases.{AreReady};
ghost use Rattle.paving_log_check.specs.Forming.{EventsHold, EventsBreak};
ghost use Rattle.paving_log_check.specs.Steps.{stage_of, StepsPass, StepsFail, stage_behind};

use crate::faults::plain_fault;
use crate::renewals::RenewalTest;
use crate::rows_test::RowsTest;
use crate::steps::{done_fault, step_fault};
use crate::verdict::Fault;
use grid_model::NoMemory;
use paving_log::Body;
use sat_model::Rules;
use std::alloc::Global;
use step_lines::StepsAhead;
use subpaving::Live;

/// Tests the next `count` steps, the first of which is line `line`, and takes them.
fn take_steps(
    line: u32,
    count: u32,
    rules: &Rules,
    test: &mut RowsTest<'_>,
    live: &mut Live,
    ahead: &mut StepsAhead<'_>,
) -> Result<Option<Fault>, NoMemory>
    requires { line + count < 2 ^ 32 }
    ensures found { IfOk result (λ found. MatchOption found
        (StepsPass rules.now (stage_of live.old test.old) (take count (steps_left ahead.old)))
        (λ fault. (k : ℕ) × StepsFail rules.now (stage_of live.old test.old)
        (take count (steps_left ahead.old)) k fault.number × ShowsNoSpans fault
        × (fault.line ≡ line + k))) }
    ensures stage { IfOk result (λ found. IfNone found (stage_of live.new test.new
        ≡ stage_behind (stage_of live.old test.old) (take count (steps_left ahead.old)))) }
    ensures left { IfOk result (λ found. IfNone found
        (steps_left ahead.new ≡ drop count (steps_left ahead.old))) }
{
    for i in 0..count {
        let Some(step) = ahead.next() else {
            return Ok(None);
        };
        if let Some(number) = step_fault(test, rules, live, &step) {
            return Ok(Some(plain_fault(line + i, number)));
        }
        live.take(&step)?;
    }
    Ok(None)
}

/// The first of the lines of the steps and renewals, and of the splits behind them, that fails a
/// test, where `line` is the number of the first of them.
pub(crate) fn events_fault(
    alloc: Global,
    line: u32,
    given: &RenewalTest<'_>,
    rules: &Rules,
    body: &Body,
) -> Result<Option<Fault>, NoMemory>
    requires numbered { line + lines_of_all (body_value body.now).events < 2 ^ 32 }
    requires rows { length given.now.firsts.now ≤ 64 }
    requires ready { AreReady given.now.delays (grid_box given.now.root.now) given.now.bases.now }
    ensures { IfOk result (λ found. MatchOption found
        (EventsHold given.now.delays (grid_box given.now.root.now) given.now.firsts.now
        given.now.bases.now rules.now body.now.done (body_value body.now).events)
        (λ fault. (k : ℕ) × EventsBreak given.now.delays (grid_box given.now.root.now)
        given.now.firsts.now given.now.bases.now rules.now body.now.done
        (body_value body.now).events k fault × (fault.line ≡ line + k))) }
{
    let mut live = Live::of_root(alloc, given.root)?;
    let mut test = RowsTest::new(given.firsts, rules);
    let mut ahead = body.steps.ahead();
    let mut next = line;
    let mut taken = 0;
    for renewal in &body.renewals {
        let count = renewal.at - taken;
        if let Some(fault) = take_steps(next, count, rules, &mut test, &mut live, &mut ahead)? {
            return Ok(Some(fault));
        }
        if let Some(fault) = given.renewal_fault(next + count, &mut live, renewal) {
            return Ok(Some(fault));
        }
        next += count + 1 + renewal.rows.len() as u32;
        test = RowsTest::new(&renewal.rows, rules);
        taken = renewal.at;
    }
    let count = body.steps.len() as u32 - taken;
    if let Some(fault) = take_steps(next, count, rules, &mut test, &mut live, &mut ahead)? {
        return Ok(Some(fault));
    }
    match done_fault(&live, body.done) {
        Some(number) => Ok(Some(plain_fault(next + count, number))),
        None => Ok(None),
    }
}
