//! The verdict on a log that was checked against files.

ghost use Rattle.cover_run.specs.Checking.{SaysNo, SaysYes};
ghost use Rattle.cover_run.specs.Telling.{Tells, sinks};

use crate::Verdict;
use crate::check_texts::fault_line;
use crate::telling::{say, tell};
use crate::texts::yes_line;
use grid_model::NoMemory;
use input_files::{Notice, Status};
use outer_io::Sink;

/// Prints the line of a verdict, or says that memory ran out.
pub fn tell_verdict<O: Sink, E: Sink>(
    verdict: &Result<Verdict, NoMemory>,
    out: &mut O,
    err: &mut E,
) -> Status
    ensures { Tells (SaysYes verdict.now) (SaysNo verdict.now)
        (sinks (O.state out.old) (E.state err.old)) (sinks (O.state out.new) (E.state err.new))
        (O.reliable out.new) result }
{
    match verdict {
        Ok(Verdict::Yes { boxes }) => tell(Status::Done, yes_line(*boxes).as_bytes(), out, err),
        Ok(Verdict::No(fault)) => tell(Status::No, fault_line(fault).as_bytes(), out, err),
        Err(NoMemory) => say(err, &Notice::NoMemory),
    }
}
