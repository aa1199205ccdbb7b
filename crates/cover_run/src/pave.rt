//! The command `pave ROWS LOG`.

ghost use Rattle.cover_run.specs.Runs.{RunOf, paving};
ghost use Rattle.cover_run.specs.Worlds.{world};
ghost use Rattle.log_writer.specs.Writing.{trust_of};

use crate::telling::say;
use crate::writing::write_named;
use input_files::{Limits, RowsText, Status, read_named};
use log_writer::{LogBlocks, Wanted};
use outer_io::{Shelf, Sink};
use std::alloc::Global;

/// Does what `pave ROWS LOG` asks for.
pub fn run_pave<H: Shelf, O: Sink, E: Sink>(
    alloc: Global,
    limits: &Limits,
    rows: &str,
    log: &str,
    shelf: &mut H,
    out: &mut O,
    err: &mut E,
) -> Status
    ensures { RunOf (paving limits.now rows.now log.now)
        (world (H.state shelf.old) (O.state out.old) (E.state err.old))
        (world (H.state shelf.new) (O.state out.new) (E.state err.new))
        (trust_of (H.reliable shelf.new) (O.reliable out.new)) result }
{
    let given = match read_named(alloc, limits, rows, &RowsText, shelf) {
        Ok(given) => given,
        Err(notice) => return say(err, &notice),
    };
    // Rows say nothing of bounds.
    let wanted = Wanted {
        rules: given.rules,
        directions: None,
    };
    let mut blocks = LogBlocks::of_log(given);
    write_named(alloc, limits, log, &wanted, &mut blocks, shelf, out, err)
}
