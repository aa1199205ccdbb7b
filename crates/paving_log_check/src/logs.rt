//! The verdict on a whole log.

ghost use Rattle.std.specs.Prelude.{◌≡◌, IfOk};
ghost use Rattle.sat_model.specs.Cover.{RowCover, kept_boxes};
ghost use Rattle.sat_model.specs.Logs.{IsNumbered};
ghost use Rattle.sat_model.specs.Verdicts.{Judged, FirstFault};
ghost use Rattle.paving_log.specs.Values.{log_value};
ghost use Rattle.paving_log_check.specs.Answers.{IfYes, IfNo, IsOnlyFault, ShowsNoSpans};

use crate::blocks::{block_fault, kept_boxes};
use crate::verdict::Verdict;
use grid_model::NoMemory;
use paving_log::Log;
use std::alloc::Global;

/// Judges a log with its rows taken as given: yes with the number of boxes closed inside or at the
/// edge, or no with the first line that fails a test. A yes means that in each paved epoch the
/// pieces partition the root, the inside and edge boxes cover what all but at most `outliers` rows
/// may fit, all but at most as many rows surely fit each inside box at its clock offset, and each
/// bound holds what all but at most as many may fit.
pub fn judge(alloc: Global, log: &Log) -> Result<Verdict, NoMemory>
    requires numbered { IsNumbered (log_value log.now) }

    ensures judged { IfOk result (λ verdict. IfYes verdict (λ boxes. Judged (log_value log.now))) }
    ensures cover { IfOk result (λ verdict. IfYes verdict (λ boxes. RowCover (log_value log.now))) }
    ensures boxes { IfOk result
        (λ verdict. IfYes verdict (λ boxes. boxes ≡ kept_boxes (log_value log.now))) }

    ensures first_fault { IfOk result (λ verdict. IfNo verdict (λ fault.
        FirstFault (log_value log.now) fault.line fault.number)) }
    ensures only_fault { IfOk result (λ verdict. IfNo verdict (IsOnlyFault (log_value log.now))) }
    ensures refused { IfOk result
        (λ verdict. IfNo verdict (λ fault. Judged (log_value log.now) → ⊥)) }
    ensures no_spans { IfOk result (λ verdict. IfNo verdict ShowsNoSpans) }
{
    let mut boxes: u64 = 0;
    let mut before: Option<u32> = None;
    for epoch in &log.epochs {
        if let Some(fault) = block_fault(alloc, &log.rules, before, epoch)? {
            return Ok(Verdict::No(fault));
        }
        boxes += kept_boxes(epoch);
        before = Some(epoch.index);
    }
    Ok(Verdict::Yes { boxes })
}
