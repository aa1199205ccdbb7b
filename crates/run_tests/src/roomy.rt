//! Runs over objects in memory of which no call is to fail.

ghost use Rattle.std.specs.Prelude.{IfSome};
ghost use Rattle.command_words.specs.Commands.{command_of};
ghost use Rattle.command_words.specs.Seen.{texts};
ghost use Rattle.run_tests.specs.Roomy.{IsReady, HasShelfRoom, HasRoomBeyond};
ghost use Rattle.run_tests.specs.Roomy.{HasSinkRoom, IsFault};

use cover_run::{Limits, Status, run};
use outer_io::{MemoryShelf, MemorySink, Shelf, Sink};
use std::alloc::Global;

/// A run over objects in memory of which no call is to fail, where the files that are read are
/// there and the log's name is the one that can be created. No fault ends it where the shelf and
/// `out` have room left behind it, and the shelf has where it had room for more bytes than the
/// limit of a log.
pub fn run_with_room(
    alloc: Global,
    limits: &Limits,
    words: &[String],
    shelf: &mut MemoryShelf,
    out: &mut MemorySink,
    err: &mut MemorySink,
) -> Status
    requires { IfSome (command_of (texts words.now)) (λ command. IsReady command
        (⟦<MemoryShelf as Shelf>⟧.state shelf.old) (⟦<MemorySink as Sink>⟧.state out.old)) }
    ensures no_fault { HasShelfRoom (⟦<MemoryShelf as Shelf>⟧.state shelf.new)
        → HasSinkRoom (⟦<MemorySink as Sink>⟧.state out.new) → IsFault result → ⊥ }
    ensures room { HasRoomBeyond limits.now.log (⟦<MemoryShelf as Shelf>⟧.state shelf.old)
        → HasShelfRoom (⟦<MemoryShelf as Shelf>⟧.state shelf.new) }
{
    let status = run(alloc, limits, words, shelf, out, err);
    let _room = shelf.room();
    let _out_room = out.room();
    status
}
