//! What is said, and what is printed of a verdict.

ghost use Rattle.std.specs.Prelude.{◌≡◌};
ghost use Rattle.cover_run.specs.Telling.{TellsLine, sinks};
ghost use Rattle.cover_run.specs.Worlds.{Says};
ghost use Rattle.input_files.specs.Statuses.{status_of};

use input_files::{Notice, Status, notice_line};
use outer_io::{Sink, write_sink};

/// Says the notice on standard error, whatever becomes of it there, and how the run ends.
pub fn say<E: Sink>(err: &mut E, notice: &Notice) -> Status
    ensures status { result ≡ status_of notice.now }
    ensures line { Says (E.state err.old) (E.state err.new) notice.now }
{
    let _ = write_sink(err, notice_line(notice).as_bytes());
    notice.status()
}

/// Prints the line of a verdict with this status, or says that it couldn't.
pub fn tell<O: Sink, E: Sink>(status: Status, line: &[u8], out: &mut O, err: &mut E) -> Status
    ensures { TellsLine status line.now (sinks (O.state out.old) (E.state err.old))
        (sinks (O.state out.new) (E.state err.new)) (O.reliable out.new) result }
{
    match write_sink(out, line) {
        Ok(()) => status,
        Err(_) => say(err, &Notice::OutFault),
    }
}
