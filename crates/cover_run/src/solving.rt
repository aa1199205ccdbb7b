//! The command `solve OBS NAV SETTINGS LOG`.

ghost use Rattle.command_words.specs.Seen.{files_asked};
ghost use Rattle.cover_run.specs.Runs.{RunOf, solving};
ghost use Rattle.cover_run.specs.Solving.{Solution};
ghost use Rattle.cover_run.specs.Worlds.{world};
ghost use Rattle.input_files.specs.Inputs.{AreEnough};
ghost use Rattle.log_writer.specs.Writing.{trust_of};

use crate::chosen::chosen_in;
use crate::file_rows::rows_of;
use crate::telling::say;
use crate::writing::{wanted_by, write_named};
use command_words::Files;
use epoch_rows::ObsBlocks;
use epoch_selection::{Searches, Selection};
use input_files::{Inputs, Limits, Status, read_inputs};
use outer_io::{Shelf, Sink};
use std::alloc::Global;

/// Writes the log of these epochs of the files and prints its report. Rows are renewed where the
/// settings say so.
pub fn write_solution<H: Shelf, O: Sink, E: Sink>(
    alloc: Global,
    limits: &Limits,
    inputs: &Inputs,
    chosen: Selection,
    log: &str,
    shelf: &mut H,
    out: &mut O,
    err: &mut E,
) -> Status
    requires { AreEnough inputs.now }
    ensures { Solution limits.now.log log.now chosen inputs.now
        (world (H.state shelf.old) (O.state out.old) (E.state err.old))
        (world (H.state shelf.new) (O.state out.new) (E.state err.new))
        (trust_of (H.reliable shelf.new) (O.reliable out.new)) result }
{
    let settings = &inputs.settings;
    let source = rows_of(inputs);
    let searches = Searches {
        left: &inputs.obs.epochs,
        selection: chosen,
        root: settings.root(inputs.obs.position),
    };
    let mut blocks = ObsBlocks::of_walk(alloc, &source, searches, &settings.rules, settings.renew);
    let wanted = wanted_by(settings);
    write_named(alloc, limits, log, &wanted, &mut blocks, shelf, out, err)
}

/// Does what `solve OBS NAV SETTINGS LOG` asks for.
pub fn run_solve<H: Shelf, O: Sink, E: Sink>(
    alloc: Global,
    limits: &Limits,
    words: &Files<'_>,
    shelf: &mut H,
    out: &mut O,
    err: &mut E,
) -> Status
    ensures { RunOf (solving limits.now (files_asked words.now))
        (world (H.state shelf.old) (O.state out.old) (E.state err.old))
        (world (H.state shelf.new) (O.state out.new) (E.state err.new))
        (trust_of (H.reliable shelf.new) (O.reliable out.new)) result }
{
    match read_inputs(alloc, limits, words, false, shelf) {
        Ok(inputs) => write_solution(
            alloc,
            limits,
            &inputs,
            chosen_in(words),
            words.log,
            shelf,
            out,
            err,
        ),
        Err(notice) => say(err, &notice),
    }
}
