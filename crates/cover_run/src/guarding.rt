//! The command `guard OBS NAV SETTINGS ZONES LOG`.

ghost use Rattle.std.specs.Prelude.{◌<◌, ◌^◌, IfOk, length};
ghost use Rattle.std.specs.List.{AllByRecursion};
ghost use Rattle.command_words.specs.Seen.{files_asked};
ghost use Rattle.cover_run.specs.Checking.{AreReady};
ghost use Rattle.cover_run.specs.Guarding.{AcceptsAs, RefusesAs, SaysDenied, SaysFound};
ghost use Rattle.cover_run.specs.Guarding.{SaysGuarded};
ghost use Rattle.cover_run.specs.Runs.{RunOf, guarding};
ghost use Rattle.cover_run.specs.Telling.{Tells, TellsLine, sinks};
ghost use Rattle.cover_run.specs.Worlds.{world};
ghost use Rattle.cover_run.specs.ZoneTexts.{HasAll, guard_text};
ghost use Rattle.input_files.specs.Motion.{HasMotion, speed_of};
ghost use Rattle.input_files.specs.Zones.{zones_value};
ghost use Rattle.input_files.specs.declared.status.Status.{Status};
ghost use Rattle.log_writer.specs.Writing.{trust_of};
ghost use Rattle.paving_log.specs.CoverBoxes.{BodyFolds};
ghost use Rattle.paving_log.specs.Values.{log_value};
ghost use Rattle.paving_log_check.specs.Answers.{IfNo, IfYes};

use crate::Verdict;
use crate::check_texts::fault_line;
use crate::checked::Checked;
use crate::checking::check_verdict;
use crate::chosen::chosen_in;
use crate::guarded::{Guarded, read_guarded};
use crate::rechecking::track_verdict;
use crate::telling::{say, tell};
use crate::zone_lines::write_zones;
use command_words::Files;
use epoch_selection::Selection;
use grid_model::NoMemory;
use input_files::{Limits, Notice, Status};
use outer_io::{Shelf, Sink};
use std::alloc::Global;
use zone_guard::{EpochFindings, Watches, log_findings};

/// The verdict that comes first: that of `retrack` for the log of a track, else that of `check`.
fn verdict_of(
    alloc: Global,
    found: &Checked,
    chosen: Selection,
    tracked: bool,
) -> Result<Verdict, NoMemory>
    requires ready { AreReady found.now }
    requires motion { HasMotion tracked (speed_of found.now.inputs.settings) }
    ensures yes { IfOk result (λ v. IfYes v
        (AcceptsAs tracked chosen found.now.inputs (log_value found.now.log))) }
    ensures no { IfOk result (λ v. IfNo v
        (RefusesAs tracked chosen found.now.inputs (log_value found.now.log))) }
{
    if tracked {
        track_verdict(alloc, found, chosen)
    } else {
        check_verdict(alloc, found, chosen)
    }
}

/// Prints what was found.
fn tell_findings<O: Sink, E: Sink>(
    zones: &Watches,
    epochs: &[EpochFindings],
    out: &mut O,
    err: &mut E,
) -> Status
    requires each { AllByRecursion (HasAll (length zones.now.list.items)) epochs.now }
    requires few { length epochs.now < 2 ^ 32 }
    ensures { TellsLine Status.Done (guard_text (zones_value zones.now) epochs.now)
        (sinks (O.state out.old) (E.state err.old)) (sinks (O.state out.new) (E.state err.new))
        (O.reliable out.new) result }
{
    match write_zones(zones, epochs, out) {
        Ok(()) => Status::Done,
        Err(_) => say(err, &Notice::OutFault),
    }
}

/// Finds all answers, and prints them.
fn tell_zones<O: Sink, E: Sink>(alloc: Global, found: &Guarded, out: &mut O, err: &mut E) -> Status
    requires ready { AreReady found.now.checked }
    requires folds { AllByRecursion (λ block. BodyFolds block.body)
        (log_value found.now.checked.log).blocks }
    ensures { Tells (SaysFound found.now) (λ line. ⊥)
        (sinks (O.state out.old) (E.state err.old)) (sinks (O.state out.new) (E.state err.new))
        (O.reliable out.new) result }
{
    match log_findings(alloc, &found.zones.list, &found.checked.log) {
        Ok(epochs) => tell_findings(&found.zones, &epochs, out, err),
        Err(NoMemory) => say(err, &Notice::NoMemory),
    }
}

/// Prints the fault of a log that isn't accepted, and else what is found of the zones.
fn tell_guarded<O: Sink, E: Sink>(
    alloc: Global,
    found: &Guarded,
    chosen: Selection,
    tracked: bool,
    out: &mut O,
    err: &mut E,
) -> Status
    requires ready { AreReady found.now.checked }
    requires motion { HasMotion tracked (speed_of found.now.checked.inputs.settings) }
    ensures { Tells (SaysGuarded tracked chosen found.now) (SaysDenied tracked chosen found.now)
        (sinks (O.state out.old) (E.state err.old)) (sinks (O.state out.new) (E.state err.new))
        (O.reliable out.new) result }
{
    match verdict_of(alloc, &found.checked, chosen, tracked) {
        Ok(Verdict::Yes { .. }) => tell_zones(alloc, found, out, err),
        Ok(Verdict::No(fault)) => tell(Status::No, fault_line(&fault).as_bytes(), out, err),
        Err(NoMemory) => say(err, &Notice::NoMemory),
    }
}

/// Does what `guard OBS NAV SETTINGS ZONES LOG` asks for, of the log of a track where it is
/// `tracked`.
pub fn run_guard<H: Shelf, O: Sink, E: Sink>(
    alloc: Global,
    limits: &Limits,
    words: &Files<'_>,
    zones: &str,
    tracked: bool,
    shelf: &mut H,
    out: &mut O,
    err: &mut E,
) -> Status
    ensures { RunOf (guarding limits.now (files_asked words.now) zones.now tracked)
        (world (H.state shelf.old) (O.state out.old) (E.state err.old))
        (world (H.state shelf.new) (O.state out.new) (E.state err.new))
        (trust_of (H.reliable shelf.new) (O.reliable out.new)) result }
{
    match read_guarded(alloc, limits, words, zones, tracked, shelf) {
        Ok(found) => tell_guarded(alloc, &found, chosen_in(words), tracked, out, err),
        Err(notice) => say(err, &notice),
    }
}
