//! Turns of a paving, handed to a log.

ghost use Rattle.std.specs.Prelude.{◌≡◌, ◌+◌, ◌<◌, ◌≤◌, ◌^◌, List, ◌++◌, map, length, OnOk, IfErr, Err};
ghost use Rattle.box_contraction.specs.Adding.{step_value};
ghost use Rattle.paving.specs.BrokenTurns.{BrokeTurn};
ghost use Rattle.paving.specs.Counting.{IsCountOf};
ghost use Rattle.paving.specs.Standing.{turn_value};
ghost use Rattle.paving.specs.Taken.{Rose, TookAll, BrokeOff};
ghost use Rattle.paving.specs.Turns.{TookEvents, turn_events};
ghost use Rattle.sat_model.specs.Fold.{ShownStep};

use crate::counts::Counts;
use crate::steps::{StepFault, Steps};
use crate::turn::Turn;
use box_contraction::BoxStep;

/// Hands steps to the log, and counts them.
fn put_steps<L: Steps>(steps: &[BoxStep], counts: &mut Counts, log: &mut L) -> Result<(), StepFault>
    requires room { (before : List ShownStep) × IsCountOf counts.old before
        × (length before + length steps.now < 2 ^ 32) }
    ensures took { OnOk result (TookAll L.took log.old (map step_value steps.now) log.new) }
    ensures counts { OnOk result ((before : List ShownStep) → IsCountOf counts.old before
        → IsCountOf counts.new (before ++ map step_value steps.now)) }
    ensures broken { IfErr result (λ fault. BrokeOff L.took L.broke L.room fault
        (map step_value steps.now) log.old log.new) }
    ensures failed { result ≡ Err StepFault.Failed → Rose (L.faults log.old) (L.faults log.new) }
    ensures counted { L.faults log.old ≤ L.faults log.new }
{
    for shown in steps {
        log.step(&shown.step, &shown.part)?;
        counts.add(&shown.step);
    }
    Ok(())
}

/// Hands a turn to the log, its steps and then the rows that are renewed behind them, and counts
/// the steps. The rest of the turn is dropped where the log breaks off.
pub fn put_turn<L: Steps>(
    turn: &Turn<'_>,
    counts: &mut Counts,
    log: &mut L,
) -> Result<(), StepFault>
    requires room { (before : List ShownStep) × IsCountOf counts.old before
        × (length before + length (turn_value turn.now).steps < 2 ^ 32) }
    ensures took { OnOk result (TookEvents L.took L.took_rows log.old
        (turn_events (turn_value turn.now)) log.new) }
    ensures counts { OnOk result ((before : List ShownStep) → IsCountOf counts.old before
        → IsCountOf counts.new (before ++ (turn_value turn.now).steps)) }
    ensures broken { IfErr result (λ fault. BrokeTurn L.took L.broke L.broke_rows L.room fault
        (turn_value turn.now) log.old log.new) }
    ensures failed { result ≡ Err StepFault.Failed → Rose (L.faults log.old) (L.faults log.new) }
    ensures counted { L.faults log.old ≤ L.faults log.new }
{
    put_steps(turn.steps, counts, log)?;
    if let Some(in_use) = turn.renewed {
        log.renew(&in_use.part, &in_use.rows)?;
    }
    Ok(())
}
