//! The whole run of the program.

ghost use Rattle.std.specs.Prelude.{◌≡◌, ◌≢◌, ◌⊎◌, None, Some};
ghost use Rattle.command_words.specs.Commands.{command_of};
ghost use Rattle.command_words.specs.Seen.{HasRanges, asked, texts};
ghost use Rattle.cover_run.specs.Runs.{Obeys, ObeysWords, Runs, asks_quiet};
ghost use Rattle.cover_run.specs.Worlds.{world};
ghost use Rattle.input_files.specs.declared.status.Status.{Status};
ghost use Rattle.log_writer.specs.Writing.{trust_of};

use crate::checking::run_check;
use crate::guarding::run_guard;
use crate::judging::run_judge;
use crate::making::run_make;
use crate::pave::run_pave;
use crate::rechecking::run_retrack;
use crate::solving::run_solve;
use crate::telling::say;
use crate::tracking::run_track;
use crate::unseen::Unseen;
use command_words::{Command, command_of};
use grid_model::NoMemory;
use input_files::{Limits, Notice, Status};
use outer_io::{Shelf, Sink};
use std::alloc::Global;

/// Does what the words after the program's name ask for, which are read with `clap`. `judge LOG`
/// reads the log, judges it with its satellite rows taken as given, and prints the verdict on
/// `out`. `solve OBS NAV SETTINGS LOG` reads the files of a receiver, paves their epochs, writes
/// the log and prints its report on `out`. `check` with the same words reads them and the log, and
/// prints the verdict of the files on it. Both take `--from N` and `--to N`, the first and the last
/// epoch that is taken, and `--station FILE`, the observation file of a station, with which rows are
/// those of single differences. `track` and `retrack` with these words are the same of a receiver that
/// moves: each epoch is searched in the root that the one before leaves, and behind one in which
/// the receiver is lost nothing more is, or where the settings say so the track begins anew. `guard
/// OBS NAV SETTINGS ZONES LOG` checks the log as `check` does, or with `--track` as `retrack`. Where
/// the verdict is no it prints that alone, and else for each epoch what is found of each zone and
/// direction. `pave ROWS LOG` reads the rows,
/// paves their epochs, writes the log and prints the report on `out`. With `--quiet` these three
/// that write a log print no report: `out` stays as it is. `make SEED EPOCHS` makes the
/// files of a receiver, solves them in memory and prints two lines on `out`. What stands in the way
/// is said on `err`, where a fault changes nothing. When none comes over objects in memory is said
/// at `run_with_room` of `run_tests`.
pub fn run<H: Shelf, O: Sink, E: Sink>(
    alloc: Global,
    limits: &Limits,
    words: &[String],
    shelf: &mut H,
    out: &mut O,
    err: &mut E,
) -> Status
    // Usage is answered only where `clap` doesn't take the words or a number among them hasn't its
    // form and range. There nothing else is, but for want of memory.
    ensures usage { result ≡ Status.Usage → command_of (texts words.now) ≡ None }
    ensures no_command { command_of (texts words.now) ≡ None
        → (result ≡ Status.Usage) ⊎ (result ≡ Status.NoMemory) }
    ensures runs { Runs limits.now (command_of (texts words.now))
        (world (H.state shelf.old) (O.state out.old) (E.state err.old))
        (world (H.state shelf.new) (O.state out.new) (E.state err.new))
        (trust_of (H.reliable shelf.new) (O.reliable out.new)) result }
{
    match command_of(alloc, words) {
        Ok(Some(command)) => obey(alloc, limits, &command, shelf, out, err),
        Ok(None) => say(err, &Notice::Usage),
        Err(NoMemory) => say(err, &Notice::NoMemory),
    }
}

/// Whether the command asks for a log without its report.
fn asks_quiet(command: &Command<'_>) -> bool
    ensures { result ≡ asks_quiet (Some (asked command.now)) }
{
    match command {
        Command::Pave { quiet, .. } => *quiet,
        Command::Solve { quiet, .. } => *quiet,
        Command::Track { quiet, .. } => *quiet,
        _ => false,
    }
}

/// Does what the command asks for, and prints no report where it is to be quiet.
fn obey<H: Shelf, O: Sink, E: Sink>(
    alloc: Global,
    limits: &Limits,
    command: &Command<'_>,
    shelf: &mut H,
    out: &mut O,
    err: &mut E,
) -> Status
    requires { HasRanges command.now }
    ensures known { result ≢ Status.Usage }
    ensures obeys { ObeysWords limits.now (Some (asked command.now))
        (world (H.state shelf.old) (O.state out.old) (E.state err.old))
        (world (H.state shelf.new) (O.state out.new) (E.state err.new))
        (trust_of (H.reliable shelf.new) (O.reliable out.new)) result }
{
    if asks_quiet(command) {
        let mut nowhere = Unseen;
        return obey_with(alloc, limits, command, shelf, &mut nowhere, err);
    }
    obey_with(alloc, limits, command, shelf, out, err)
}

/// Does what the command asks for, with its report on `out`.
fn obey_with<H: Shelf, O: Sink, E: Sink>(
    alloc: Global,
    limits: &Limits,
    command: &Command<'_>,
    shelf: &mut H,
    out: &mut O,
    err: &mut E,
) -> Status
    requires { HasRanges command.now }
    ensures known { result ≢ Status.Usage }
    ensures obeys { Obeys limits.now (Some (asked command.now))
        (world (H.state shelf.old) (O.state out.old) (E.state err.old))
        (world (H.state shelf.new) (O.state out.new) (E.state err.new))
        (trust_of (H.reliable shelf.new) (O.reliable out.new)) result }
{
    match command {
        Command::Judge { log } => run_judge(alloc, limits, log, shelf, out, err),
        Command::Pave { rows, log, .. } => run_pave(alloc, limits, rows, log, shelf, out, err),
        Command::Solve { files, .. } => run_solve(alloc, limits, files, shelf, out, err),
        Command::Check(files) => run_check(alloc, limits, files, shelf, out, err),
        Command::Track { files, .. } => run_track(alloc, limits, files, shelf, out, err),
        Command::Retrack(files) => run_retrack(alloc, limits, files, shelf, out, err),
        Command::Guard {
            files,
            zones,
            tracked,
        } => run_guard(alloc, limits, files, zones, *tracked, shelf, out, err),
        Command::Make { seed, epochs } => run_make(alloc, limits, *seed, *epochs, out, err),
    }
}
