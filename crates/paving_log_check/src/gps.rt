//! The verdict on a log that is checked against files.

ghost use Rattle.std.specs.Prelude.{IfOk};
ghost use Rattle.error_bounds.specs.Reading.{IsEnough};
ghost use Rattle.sat_model.specs.Logs.{IsNumbered};
ghost use Rattle.paving_log.specs.Values.{log_value};
ghost use Rattle.paving_log_check.specs.Answers.{IfYes, IfNo};
ghost use Rattle.paving_log_check.specs.GpsChecked.{IsFileAccepted, IsFileRefused, IsGpsAccepted};
ghost use Rattle.paving_log_check.specs.GpsChecked.{IsGpsRefused};

use crate::files::check_with;
use crate::verdict::Verdict;
use epoch_selection::{Searches, Selection};
use error_bounds::Settings;
use grid_model::NoMemory;
use paving_log::Log;
use rinex_nav::Nav;
use rinex_obs::Obs;
use sat_rows::{GpsRows, RowSource};
use std::alloc::Global;

/// Checks a log against an observation file, a source of rows and settings, as `check` does.
pub fn check_by<S: RowSource>(
    alloc: Global,
    source: &S,
    obs: &Obs,
    settings: &Settings,
    selection: Selection,
    log: &Log,
) -> Result<Verdict, NoMemory>
    requires numbered { IsNumbered (log_value log.now) }
    requires centre { IsEnough settings.now.centre obs.now.position }

    ensures yes { IfOk result (λ verdict. IfYes verdict (λ boxes.
        IsFileAccepted (S.meaning source.now) obs.now settings.now selection (log_value log.now)
        boxes)) }
    ensures no { IfOk result (λ verdict. IfNo verdict (λ fault.
        IsFileRefused (S.meaning source.now) obs.now settings.now selection (log_value log.now)
        fault)) }
{
    let searches = Searches {
        left: &obs.epochs,
        selection,
        root: settings.root(obs.position),
    };
    check_with(alloc, source, &searches, &settings.rules, log)
}

/// Checks a log against an observation file, a navigation file and settings: yes with the number of
/// boxes closed inside or at the edge, or no with the first line that fails a test. Where the
/// centre of the search box is that of the header, its position has to be there, within 8,500 km on
/// each axis.
pub fn check(
    alloc: Global,
    obs: &Obs,
    nav: &Nav,
    settings: &Settings,
    selection: Selection,
    log: &Log,
) -> Result<Verdict, NoMemory>
    requires numbered { IsNumbered (log_value log.now) }
    requires centre { IsEnough settings.now.centre obs.now.position }

    ensures yes { IfOk result (λ verdict. IfYes verdict (λ boxes.
        IsGpsAccepted obs.now nav.now settings.now selection (log_value log.now) boxes)) }
    ensures no { IfOk result (λ verdict. IfNo verdict (λ fault.
        IsGpsRefused obs.now nav.now settings.now selection (log_value log.now) fault)) }
{
    let source = GpsRows { nav, settings };
    check_by(alloc, &source, obs, settings, selection, log)
}
