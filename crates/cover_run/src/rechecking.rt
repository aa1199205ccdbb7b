//! The command `retrack OBS NAV SETTINGS LOG`.

ghost use Rattle.std.specs.Prelude.{IfOk};
ghost use Rattle.command_words.specs.Seen.{files_asked};
ghost use Rattle.cover_run.specs.Checking.{AreReady};
ghost use Rattle.cover_run.specs.Rechecking.{AcceptsTrack, RefusesTrack, SaysTracked};
ghost use Rattle.cover_run.specs.Rechecking.{SaysUntracked};
ghost use Rattle.cover_run.specs.Runs.{RunOf, rechecking};
ghost use Rattle.cover_run.specs.Telling.{Tells, sinks};
ghost use Rattle.cover_run.specs.Worlds.{world};
ghost use Rattle.input_files.specs.Motion.{HasSpeed, speed_of};
ghost use Rattle.log_writer.specs.Writing.{trust_of};
ghost use Rattle.paving_log.specs.Values.{log_value};
ghost use Rattle.paving_log_check.specs.Answers.{IfNo, IfYes};

use crate::Verdict;
use crate::checked::{Checked, read_checked};
use crate::chosen::chosen_in;
use crate::file_rows::rows_of;
use crate::telling::say;
use crate::tracking::declared_tube;
use crate::verdicts::tell_verdict;
use command_words::Files;
use epoch_selection::Selection;
use grid_model::NoMemory;
use input_files::{Limits, Status};
use outer_io::{Shelf, Sink};
use std::alloc::Global;
use tube_searches::check_tube;

/// The verdict on the log against these epochs of the files, each over the root that the one before
/// leaves.
pub fn track_verdict(alloc: Global, found: &Checked, chosen: Selection) -> Result<Verdict, NoMemory>
    requires ready { AreReady found.now }
    requires moving { HasSpeed (speed_of found.now.inputs.settings) }
    ensures yes { IfOk result (λ v. IfYes v
        (AcceptsTrack chosen found.now.inputs (log_value found.now.log))) }
    ensures no { IfOk result (λ v. IfNo v
        (RefusesTrack chosen found.now.inputs (log_value found.now.log))) }
{
    let inputs = &found.inputs;
    let settings = &inputs.settings;
    let source = rows_of(inputs);
    let tube = declared_tube(inputs, chosen);
    check_tube(alloc, &source, &tube, &settings.rules, &found.log)
}

/// Checks the log against these epochs of the files, each over the root that the one before leaves,
/// and prints the verdict.
fn tell_rechecked<O: Sink, E: Sink>(
    alloc: Global,
    found: &Checked,
    chosen: Selection,
    out: &mut O,
    err: &mut E,
) -> Status
    requires ready { AreReady found.now }
    requires moving { HasSpeed (speed_of found.now.inputs.settings) }
    ensures { Tells (SaysTracked chosen found.now) (SaysUntracked chosen found.now)
        (sinks (O.state out.old) (E.state err.old)) (sinks (O.state out.new) (E.state err.new))
        (O.reliable out.new) result }
{
    let verdict = track_verdict(alloc, found, chosen);
    tell_verdict(&verdict, out, err)
}

/// Does what `retrack OBS NAV SETTINGS LOG` asks for.
pub fn run_retrack<H: Shelf, O: Sink, E: Sink>(
    alloc: Global,
    limits: &Limits,
    words: &Files<'_>,
    shelf: &mut H,
    out: &mut O,
    err: &mut E,
) -> Status
    ensures { RunOf (rechecking limits.now (files_asked words.now))
        (world (H.state shelf.old) (O.state out.old) (E.state err.old))
        (world (H.state shelf.new) (O.state out.new) (E.state err.new))
        (trust_of (H.reliable shelf.new) (O.reliable out.new)) result }
{
    match read_checked(alloc, limits, words, true, shelf) {
        Ok(found) => tell_rechecked(alloc, &found, chosen_in(words), out, err),
        Err(notice) => say(err, &notice),
    }
}
