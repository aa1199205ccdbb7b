//! What `check` says of a log that was solved, and `retrack` of a track.

ghost use Rattle.std.specs.Prelude.{◌≡◌, ◌⊎◌, ℕ, List, None};
ghost use Rattle.command_words.specs.Commands.{Files};
ghost use Rattle.cover_run.specs.Accepting.{SolvesThenChecks, TracksThenRechecks};
ghost use Rattle.cover_run.specs.Checking.{Refuses};
ghost use Rattle.cover_run.specs.Rechecking.{RefusesTrack};
ghost use Rattle.cover_run.specs.Solving.{IsSolved};
ghost use Rattle.cover_run.specs.Tracking.{IsTracked};
ghost use Rattle.cover_run.specs.Worlds.{World};
ghost use Rattle.epoch_selection.specs.declared.selection.Selection.{Selection};
ghost use Rattle.input_files.specs.Inputs.{inputs_value};
ghost use Rattle.input_files.specs.Reading.{IsBrokenOff};
ghost use Rattle.input_files.specs.declared.inputs.Inputs.{Inputs};
ghost use Rattle.input_files.specs.declared.limits.Limits.{Limits};
ghost use Rattle.input_files.specs.declared.status.Status.{Status};
ghost use Rattle.log_writer.specs.Writing.{trust_of};
ghost use Rattle.log_lines.specs.Text.{IsLogText};
ghost use Rattle.paving_log_check.specs.declared.verdict.Fault.{Fault};
ghost use Rattle.sat_model.specs.Logs.{LogValue};

use outer_io::{Shelf, Sink};

/// The law: a log that `solve` completes is one that `check` accepts, with the same choice of
/// epochs, over shelves and sinks of these kinds. The call does nothing.
pub fn solved_is_accepted<H: Shelf, O: Sink>()
    // It has no fault against the values that it was solved for, whichever own lines it is
    // checked by.
    ensures fault { (chosen : Selection) (i j : Inputs) (limit : ℕ) (bytes said : List ℕ)
        (log : LogValue) (fault : Fault)
        → inputs_value i ≡ inputs_value j → IsSolved chosen i limit bytes said → IsLogText log bytes
        → Refuses chosen j log fault → ⊥ }
    // A run of `check` behind it prints yes, unless a fault or want of memory ends it;
    ensures accepted { (limits : Limits) (names : Files)
        (before solved kept after : World) (solving checking : H) (report verdict : O)
        (status : Status)
        → SolvesThenChecks limits names before solved kept after
        (trust_of (H.reliable solving) (O.reliable report))
        (trust_of (H.reliable checking) (O.reliable verdict)) status
        → IsBrokenOff status ⊎ (status ≡ Status.Done) }
    // and want of memory alone can end it where the shelf and `out` are reliable.
    ensures certain { (limits : Limits) (names : Files)
        (before solved kept after : World) (solving checking : H) (report verdict : O)
        (status : Status)
        → SolvesThenChecks limits names before solved kept after
        (trust_of (H.reliable solving) (O.reliable report))
        (trust_of (H.reliable checking) (O.reliable verdict)) status
        → H.reliable checking None → O.reliable verdict
        → (status ≡ Status.NoMemory) ⊎ (status ≡ Status.Done) }
{}

/// The law: a log that `track` completes is one that `retrack` accepts, with the same choice of
/// epochs, over shelves and sinks of these kinds. The call does nothing.
pub fn tracked_is_accepted<H: Shelf, O: Sink>()
    // It has no fault against the values that it was written for, whichever own lines it is
    // checked by.
    ensures fault { (chosen : Selection) (i j : Inputs) (limit : ℕ) (bytes said : List ℕ)
        (log : LogValue) (fault : Fault)
        → inputs_value i ≡ inputs_value j → IsTracked chosen i limit bytes said
        → IsLogText log bytes → RefusesTrack chosen j log fault → ⊥ }
    // A run of `retrack` behind it prints yes, unless a fault or want of memory ends it;
    ensures accepted { (limits : Limits) (names : Files)
        (before tracked kept after : World) (tracking rechecking : H) (report verdict : O)
        (status : Status)
        → TracksThenRechecks limits names before tracked kept after
        (trust_of (H.reliable tracking) (O.reliable report))
        (trust_of (H.reliable rechecking) (O.reliable verdict)) status
        → IsBrokenOff status ⊎ (status ≡ Status.Done) }
    // and want of memory alone can end it where the shelf and `out` are reliable.
    ensures certain { (limits : Limits) (names : Files)
        (before tracked kept after : World) (tracking rechecking : H) (report verdict : O)
        (status : Status)
        → TracksThenRechecks limits names before tracked kept after
        (trust_of (H.reliable tracking) (O.reliable report))
        (trust_of (H.reliable rechecking) (O.reliable verdict)) status
        → H.reliable rechecking None → O.reliable verdict
        → (status ≡ Status.NoMemory) ⊎ (status ≡ Status.Done) }
{}
