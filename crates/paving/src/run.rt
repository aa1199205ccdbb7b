//! The run of a paving.

ghost use Rattle.std.specs.Prelude.{◌≡◌, ◌≤◌, map, true, IfOk, IfErr, Err};
ghost use Rattle.grid_model.specs.Boxes.{grid_box};
ghost use Rattle.paving.specs.Runs.{IsRun, IsBroken};
ghost use Rattle.paving.specs.Taken.{Rose};

use crate::counts::Counts;
use crate::plan::Plan;
use crate::put_turn::put_turn;
use crate::renewals::Renewals;
use crate::steps::{StepFault, Steps};
use crate::turn::Pavement;

/// Paves the root of the plan, box by box, and hands each step to the log. Where the maker is
/// active, it is asked for new rows when the boxes that wait lie in a small part of the box of the
/// rows in use, and these are handed to the log too. Ends with the counts of the steps, or with the
/// first fault of the log. It takes no memory: that of the plan is enough.
pub fn pave<L: Steps, M: Renewals>(plan: Plan, log: &mut L, maker: &M) -> Result<Counts, StepFault>
    requires root { (M.maker maker.now).active ≡ true → M.root maker.now ≡ grid_box plan.root }
    requires sats { (M.maker maker.now).active ≡ true
        → M.sats maker.now ≡ map (λ row. row.sat) plan.test.rows }
    ensures run { IfOk result (λ counts. IsRun L.took L.took_rows (M.maker maker.now)
        plan.test plan.rules (grid_box plan.root) log.old log.new counts) }
    ensures broken { IfErr result (λ fault. IsBroken L.took L.broke L.took_rows L.broke_rows L.room
        fault (M.maker maker.now) plan.test plan.rules (grid_box plan.root) log.old log.new) }
    ensures failed { result ≡ Err StepFault.Failed → Rose (L.faults log.old) (L.faults log.new) }
    ensures counted { L.faults log.old ≤ L.faults log.new }
    ensures budget { IfOk result (λ counts. counts.bisections ≤ plan.rules.bisections) }
{
    let mut paving = Pavement::begin(plan);
    let mut counts = Counts::default();
    while let Some(renewed) = paving.turn(maker) {
        put_turn(&paving.given(renewed), &mut counts, log)?;
    }
    Ok(counts)
}
