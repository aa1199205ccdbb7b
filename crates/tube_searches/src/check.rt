//! The verdict on a log of a moving receiver.

ghost use Rattle.std.specs.Prelude.{IfOk};
ghost use Rattle.paving_log.specs.Values.{log_value};
ghost use Rattle.paving_log_check.specs.Answers.{IfYes, IfNo};
ghost use Rattle.paving_log_check.specs.Checked.{IsAccepted, IsRefused};
ghost use Rattle.sat_model.specs.Logs.{IsNumbered};
ghost use Rattle.tube_searches.specs.Tubes.{tube_value, tube_searches, IsInside};

use crate::tube::Tube;
use grid_model::NoMemory;
use paving_log::Log;
use paving_log_check::{Verdict, check_with};
use sat_model::Rules;
use sat_rows::RowSource;
use std::alloc::Global;

/// Checks a log of a moving receiver against a source of rows: yes with the number of boxes closed
/// inside or at the edge, or no with the first line that fails a test. Each block is tested against
/// the root that the one before leaves, and behind one that leaves none there is to be no more.
pub fn check_tube<S: RowSource>(
    alloc: Global,
    source: &S,
    tube: &Tube<'_>,
    rules: &Rules,
    log: &Log,
) -> Result<Verdict, NoMemory>
    requires numbered { IsNumbered (log_value log.now) }
    requires inside { IsInside (tube_value tube.now) }

    ensures yes { IfOk result (λ verdict. IfYes verdict (λ boxes.
        IsAccepted (S.meaning source.now)
        (tube_searches (tube_value tube.now) (log_value log.now).blocks) rules.now
        (log_value log.now) boxes)) }
    ensures no { IfOk result (λ verdict. IfNo verdict (λ fault.
        IsRefused (S.meaning source.now)
        (tube_searches (tube_value tube.now) (log_value log.now).blocks) rules.now
        (log_value log.now) fault)) }
{
    check_with(alloc, source, tube, rules, log)
}
