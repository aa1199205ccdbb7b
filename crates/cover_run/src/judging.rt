//! The command `judge LOG`.

ghost use Rattle.cover_run.specs.Judging.{SaysFault, SaysJudged};
ghost use Rattle.cover_run.specs.Runs.{RunOf, judging};
ghost use Rattle.cover_run.specs.Telling.{Tells, sinks};
ghost use Rattle.cover_run.specs.Worlds.{world};
ghost use Rattle.log_writer.specs.Writing.{trust_of};
ghost use Rattle.paving_log.specs.Values.{log_value};
ghost use Rattle.sat_model.specs.Logs.{IsNumbered};

use crate::telling::{say, tell};
use crate::texts::{no_line, yes_line};
use crate::{Verdict, judge};
use grid_model::NoMemory;
use input_files::{Limits, LogText, Notice, Status, read_named};
use outer_io::{Shelf, Sink};
use paving_log::Log;
use std::alloc::Global;

/// Judges the log and prints the verdict.
fn tell_judged<O: Sink, E: Sink>(alloc: Global, log: &Log, out: &mut O, err: &mut E) -> Status
    requires { IsNumbered (log_value log.now) }
    ensures { Tells (SaysJudged (log_value log.now)) (SaysFault (log_value log.now))
        (sinks (O.state out.old) (E.state err.old)) (sinks (O.state out.new) (E.state err.new))
        (O.reliable out.new) result }
{
    match judge(alloc, log) {
        Ok(Verdict::Yes { boxes }) => tell(Status::Done, yes_line(boxes).as_bytes(), out, err),
        Ok(Verdict::No(fault)) => tell(Status::No, no_line(&fault).as_bytes(), out, err),
        Err(NoMemory) => say(err, &Notice::NoMemory),
    }
}

/// Does what `judge LOG` asks for.
pub fn run_judge<H: Shelf, O: Sink, E: Sink>(
    alloc: Global,
    limits: &Limits,
    name: &str,
    shelf: &mut H,
    out: &mut O,
    err: &mut E,
) -> Status
    ensures { RunOf (judging limits.now name.now)
        (world (H.state shelf.old) (O.state out.old) (E.state err.old))
        (world (H.state shelf.new) (O.state out.new) (E.state err.new))
        (trust_of (H.reliable shelf.new) (O.reliable out.new)) result }
{
    match read_named(alloc, limits, name, &LogText, shelf) {
        Ok(log) => tell_judged(alloc, &log, out, err),
        Err(notice) => say(err, &notice),
    }
}
