//! What the totals of a log's report add up to.

ghost use Rattle.std.specs.Prelude.{◌≡◌, ◌≤◌, ◌*◌, count_by};
ghost use Rattle.cover_run.specs.Making.{counted_in, is_of, summed, usable_in};
ghost use Rattle.step_lines.specs.Steps.{steps_of};
ghost use Rattle.paving_log.specs.Values.{block_of, log_value};
ghost use Rattle.sat_model.specs.Logs.{IsNumbered, lines_in};
ghost use Rattle.sat_model.specs.Verdicts.{BodyPasses, Judged};
ghost use Rattle.sat_model.specs.declared.rules.Rules.{Rules};

use paving_log::{Log, LogEpoch};
use sat_model::Step;
use step_lines::LoggedSteps;

/// The numbers of a total.
#[derive(Clone, Copy, Debug, PartialEq, Eq)]
pub enum Kind {
    Inside,
    Edge,
    Outside,
    Splits,
}

/// Whether a step is counted.
fn is_of(kind: Kind, step: &Step) -> bool
    ensures { result ≡ is_of kind step.now }
{
    match kind {
        Kind::Inside => matches!(step, Step::Inside { .. }),
        Kind::Edge => matches!(step, Step::Edge { .. }),
        Kind::Outside => matches!(step, Step::Outside { .. } | Step::Cut { .. }),
        Kind::Splits => matches!(step, Step::Split { .. }),
    }
}

/// How many steps are.
fn counted_steps(kind: Kind, steps: &LoggedSteps) -> usize
    ensures { result ≡ count_by (is_of kind) (steps_of steps.now) }
{
    steps.ahead().filter(|step| is_of(kind, step)).count()
}

/// One of the numbers of an epoch's total, 0 where it has none.
fn counted_in(kind: Kind, epoch: &LogEpoch) -> u64
    ensures value { (rules : Rules)
        → BodyPasses rules (block_of epoch.now) (block_of epoch.now).body
        → result ≡ counted_in kind (block_of epoch.now) }
    ensures bound { result ≤ 4294967295 * lines_in (block_of epoch.now) }
{
    match &epoch.body {
        Some(body) => counted_steps(kind, &body.steps) as u64,
        None => 0,
    }
}

/// How many usable satellites an epoch has.
fn usable_in(epoch: &LogEpoch) -> u64
    ensures value { result ≡ usable_in (block_of epoch.now) }
    ensures bound { result ≤ 4294967295 * lines_in (block_of epoch.now) }
{
    u64::from(epoch.n)
}

/// One of the numbers of the totals, summed over the epochs.
pub fn total_of(kind: Kind, log: &Log) -> u64
    requires numbered { IsNumbered (log_value log.now) }
    requires judged { Judged (log_value log.now) }
    ensures { result ≡ summed (counted_in kind) (log_value log.now).blocks }
{
    let mut total: u64 = 0;
    for epoch in &log.epochs {
        total += counted_in(kind, epoch);
    }
    total
}

/// The usable satellites, summed over the epochs.
pub fn usable_of(log: &Log) -> u64
    requires numbered { IsNumbered (log_value log.now) }
    requires judged { Judged (log_value log.now) }
    ensures { result ≡ summed usable_in (log_value log.now).blocks }
{
    let mut total: u64 = 0;
    for epoch in &log.epochs {
        total += usable_in(epoch);
    }
    total
}
