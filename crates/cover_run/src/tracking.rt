//! The command `track OBS NAV SETTINGS LOG`.

ghost use Rattle.std.specs.Prelude.{◌≡◌, ◌≤◌, Some};
ghost use Rattle.command_words.specs.Seen.{files_asked};
ghost use Rattle.cover_run.specs.Runs.{RunOf, tracking};
ghost use Rattle.cover_run.specs.Tracking.{IsTubeOf, TellsLost, Track, lost_line, tube_of};
ghost use Rattle.cover_run.specs.Telling.{sinks};
ghost use Rattle.cover_run.specs.Worlds.{world};
ghost use Rattle.grid_model.specs.Boxes.{grid_box};
ghost use Rattle.input_files.specs.Inputs.{AreEnough};
ghost use Rattle.input_files.specs.Motion.{HasSpeed, speed_of};
ghost use Rattle.log_writer.specs.Writing.{trust_of};
ghost use Rattle.moving_tube.specs.Reach.{fastest};
ghost use Rattle.tube_searches.specs.Tubes.{tube_value};

use crate::chosen::chosen_in;
use crate::file_rows::rows_of;
use crate::telling::{say, tell};
use crate::texts::Line;
use crate::writing::{wanted_by, write_named};
use command_words::Files;
use epoch_rows::ObsBlocks;
use epoch_selection::{Searches, Selection};
use input_files::{Inputs, Limits, Status, read_inputs, speed_of};
use itoa::Buffer;
use outer_io::{Shelf, Sink};
use std::alloc::Global;
use tube_searches::Tube;

/// `lost INDEX`: the receiver wasn't in any box of this epoch.
fn lost_line(index: u32) -> Line
    ensures { result.bytes ≡ lost_line index }
{
    let mut buffer = Buffer::new();
    let mut line = Line::new();
    line.push_str("lost ");
    line.push_str(buffer.format(index));
    line.push_str("\n");
    line
}

/// The greatest speed of the receiver, in mm/s.
fn declared_speed(inputs: &Inputs) -> u32
    requires { HasSpeed (speed_of inputs.now.settings) }
    ensures speed { speed_of inputs.now.settings ≡ Some result }
    ensures fast { result ≤ fastest }
{
    match speed_of(&inputs.settings) {
        Some(speed) => speed,
        None => unreachable!(),
    }
}

/// The walk of a receiver of this speed over these epochs of the files, which begins at what an
/// earlier log leaves, where one is named.
pub fn declared_tube(inputs: &Inputs, chosen: Selection) -> Tube<'_>
    requires enough { AreEnough inputs.now }
    requires moving { HasSpeed (speed_of inputs.now.settings) }
    ensures declared { IsTubeOf inputs.now (grid_box result.searches.root) result.speed }
    ensures value { tube_value result
        ≡ tube_of chosen inputs.now (grid_box result.searches.root) result.speed }
{
    let settings = &inputs.settings;
    Tube {
        searches: Searches {
            left: &inputs.obs.epochs,
            selection: chosen,
            root: settings.root(inputs.obs.position),
        },
        speed: declared_speed(inputs),
        restart: settings.restart,
        before: inputs.after,
    }
}

/// Says at which epoch the receiver was lost, behind a log that was written to its end.
fn tell_lost<O: Sink, E: Sink>(lost: Option<u32>, out: &mut O, err: &mut E) -> Status
    ensures { TellsLost lost (sinks (O.state out.old) (E.state err.old))
        (sinks (O.state out.new) (E.state err.new)) (O.reliable out.new) result }
{
    match lost {
        Some(index) => tell(Status::Done, lost_line(index).as_bytes(), out, err),
        None => Status::Done,
    }
}

/// Writes the log of these epochs of the files, each over the root that the one before leaves, and
/// prints its report. Rows are renewed where the settings say so. Behind an epoch in which the
/// receiver is lost it ends, or begins anew where the settings say so; of a last one it says so.
fn write_track<H: Shelf, O: Sink, E: Sink>(
    alloc: Global,
    limits: &Limits,
    inputs: &Inputs,
    chosen: Selection,
    log: &str,
    shelf: &mut H,
    out: &mut O,
    err: &mut E,
) -> Status
    requires enough { AreEnough inputs.now }
    requires moving { HasSpeed (speed_of inputs.now.settings) }
    ensures { Track limits.now.log log.now chosen inputs.now
        (world (H.state shelf.old) (O.state out.old) (E.state err.old))
        (world (H.state shelf.new) (O.state out.new) (E.state err.new))
        (trust_of (H.reliable shelf.new) (O.reliable out.new)) result }
{
    let settings = &inputs.settings;
    let rules = &settings.rules;
    let source = rows_of(inputs);
    let tube = declared_tube(inputs, chosen);
    let mut blocks = ObsBlocks::of_walk(alloc, &source, tube, rules, settings.renew);
    let wanted = wanted_by(settings);
    let status = write_named(alloc, limits, log, &wanted, &mut blocks, shelf, out, err);
    if status == Status::Done {
        return tell_lost(blocks.lost(), out, err);
    }
    status
}

/// Does what `track OBS NAV SETTINGS LOG` asks for.
pub fn run_track<H: Shelf, O: Sink, E: Sink>(
    alloc: Global,
    limits: &Limits,
    words: &Files<'_>,
    shelf: &mut H,
    out: &mut O,
    err: &mut E,
) -> Status
    ensures { RunOf (tracking limits.now (files_asked words.now))
        (world (H.state shelf.old) (O.state out.old) (E.state err.old))
        (world (H.state shelf.new) (O.state out.new) (E.state err.new))
        (trust_of (H.reliable shelf.new) (O.reliable out.new)) result }
{
    match read_inputs(alloc, limits, words, true, shelf) {
        Ok(inputs) => write_track(
            alloc,
            limits,
            &inputs,
            chosen_in(words),
            words.log,
            shelf,
            out,
            err,
        ),
        Err(notice) => say(err, &notice),
    }
}
