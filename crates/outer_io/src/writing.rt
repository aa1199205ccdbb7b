//! Whole pieces, written by as many calls as it takes.

ghost use Rattle.std.specs.Prelude.{◌≡◌, ℕ, List, Option, is_some, true, OnOk};
ghost use Rattle.std.specs.Prelude.{OnErr};
ghost use Rattle.outer_io.specs.Causes.{HasCause, SucceedsWhile, SucceedsWhileAnd};
ghost use Rattle.outer_io.specs.Slots.{at};
ghost use Rattle.outer_io.specs.Taken.{TakenBy, TakenPrefix};
ghost use Rattle.outer_io.specs.Told.{AppendedBy, AppendedPrefix};
ghost use Rattle.outer_io.specs.declared.shelf.Phase.{Phase};

use crate::{Failed, Shelf, Sink, Slot};

/// Appends all bytes to what the sink has taken, or where it fails the first of them.
pub fn write_sink<O: Sink>(sink: &mut O, bytes: &[u8]) -> Result<(), Failed>
    ensures all { OnOk result (TakenBy (O.state sink.old) (O.state sink.new) bytes.now) }
    ensures prefix { OnErr result (TakenPrefix (O.state sink.old) (O.state sink.new) bytes.now) }

    // When it fails.
    ensures cause { HasCause (O.state sink.old).faults (O.state sink.new).faults result }
    ensures reliable { SucceedsWhile (O.reliable sink.old) (O.reliable sink.new)
        (O.state sink.old).faults (O.state sink.new).faults result }
{
    let mut done = 0;
    while done < bytes.len() {
        done += sink.write(&bytes[done..])?;
    }
    Ok(())
}

/// Appends all bytes to the slot's file, or where it fails the first of them.
pub fn write_shelf<H: Shelf>(shelf: &mut H, slot: Slot, bytes: &[u8]) -> Result<(), Failed>
    requires { at (H.state shelf.old).openings.phases slot ≡ Phase.Writing }
    ensures all { OnOk result (AppendedBy (H.state shelf.old) (H.state shelf.new) slot bytes.now) }
    ensures prefix { OnErr result
        (AppendedPrefix (H.state shelf.old) (H.state shelf.new) slot bytes.now) }
    ensures openings { (H.state shelf.new).openings ≡ (H.state shelf.old).openings }

    // When it fails.
    ensures cause { HasCause
        (H.state shelf.old).write_faults (H.state shelf.new).write_faults result }
    ensures other { (H.state shelf.new).read_faults ≡ (H.state shelf.old).read_faults }
    ensures reliable { (log : Option (List ℕ)) → SucceedsWhileAnd
        (H.reliable shelf.old log) (H.reliable shelf.new log) (is_some log ≡ true)
        (H.state shelf.old).write_faults (H.state shelf.new).write_faults result }
{
    let mut done = 0;
    while done < bytes.len() {
        done += shelf.write(slot, &bytes[done..])?;
    }
    Ok(())
}
