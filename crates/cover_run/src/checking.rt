//! The command `check OBS NAV SETTINGS LOG`.

ghost use Rattle.std.specs.Prelude.{IfOk};
ghost use Rattle.command_words.specs.Seen.{files_asked};
ghost use Rattle.cover_run.specs.Checking.{Accepts, AreReady, Refuses, SaysAccepted, SaysRefused};
ghost use Rattle.cover_run.specs.Runs.{RunOf, checking};
ghost use Rattle.cover_run.specs.Telling.{Tells, sinks};
ghost use Rattle.cover_run.specs.Worlds.{world};
ghost use Rattle.log_writer.specs.Writing.{trust_of};
ghost use Rattle.paving_log.specs.Values.{log_value};
ghost use Rattle.paving_log_check.specs.Answers.{IfNo, IfYes};

use crate::Verdict;
use crate::checked::{Checked, read_checked};
use crate::chosen::chosen_in;
use crate::file_rows::rows_of;
use crate::telling::say;
use crate::verdicts::tell_verdict;
use command_words::Files;
use epoch_selection::Selection;
use grid_model::NoMemory;
use input_files::{Limits, Status};
use outer_io::{Shelf, Sink};
use paving_log_check::check_by;
use std::alloc::Global;

/// The verdict on the log against these epochs of the files.
pub fn check_verdict(alloc: Global, found: &Checked, chosen: Selection) -> Result<Verdict, NoMemory>
    requires { AreReady found.now }
    ensures yes { IfOk result (λ v. IfYes v
        (Accepts chosen found.now.inputs (log_value found.now.log))) }
    ensures no { IfOk result (λ v. IfNo v
        (Refuses chosen found.now.inputs (log_value found.now.log))) }
{
    let inputs = &found.inputs;
    let settings = &inputs.settings;
    let source = rows_of(inputs);
    check_by(alloc, &source, &inputs.obs, settings, chosen, &found.log)
}

/// Checks the log against these epochs of the files and prints the verdict.
fn tell_checked<O: Sink, E: Sink>(
    alloc: Global,
    found: &Checked,
    chosen: Selection,
    out: &mut O,
    err: &mut E,
) -> Status
    requires { AreReady found.now }
    ensures { Tells (SaysAccepted chosen found.now) (SaysRefused chosen found.now)
        (sinks (O.state out.old) (E.state err.old)) (sinks (O.state out.new) (E.state err.new))
        (O.reliable out.new) result }
{
    let verdict = check_verdict(alloc, found, chosen);
    tell_verdict(&verdict, out, err)
}

/// Does what `check OBS NAV SETTINGS LOG` asks for.
pub fn run_check<H: Shelf, O: Sink, E: Sink>(
    alloc: Global,
    limits: &Limits,
    words: &Files<'_>,
    shelf: &mut H,
    out: &mut O,
    err: &mut E,
) -> Status
    ensures { RunOf (checking limits.now (files_asked words.now))
        (world (H.state shelf.old) (O.state out.old) (E.state err.old))
        (world (H.state shelf.new) (O.state out.new) (E.state err.new))
        (trust_of (H.reliable shelf.new) (O.reliable out.new)) result }
{
    match read_checked(alloc, limits, words, false, shelf) {
        Ok(found) => tell_checked(alloc, &found, chosen_in(words), out, err),
        Err(notice) => say(err, &notice),
    }
}
