//! A log that is created and written.

ghost use Rattle.std.specs.Prelude.{◌≡◌, ◌≤◌, None, [], is_some};
ghost use Rattle.cover_run.specs.Worlds.{world};
ghost use Rattle.cover_run.specs.Writing.{Writes, notice_of_fault};
ghost use Rattle.log_writer.specs.Sizes.{most_bytes};
ghost use Rattle.log_writer.specs.Sources.{source_of};
ghost use Rattle.log_writer.specs.Texts.{IsText};
ghost use Rattle.log_writer.specs.Writing.{trust_of};

use crate::telling::say;
use bound_directions::Directions;
use error_bounds::Settings;
use input_files::{Limits, Notice, Status};
use log_writer::{Blocks, Wanted, WriteFault, write_log};
use outer_io::{Shelf, Sink, Slot};
use std::alloc::Global;

/// Why the log and its report weren't written to their end. This is the log's limit.
fn notice_of_fault(limit: u64, fault: WriteFault) -> Notice
    ensures { result ≡ notice_of_fault limit fault }
{
    match fault {
        WriteFault::Log => Notice::LogFault,
        WriteFault::Out => Notice::OutFault,
        WriteFault::Full => Notice::LogFull { limit },
        WriteFault::NoMemory => Notice::NoMemory,
    }
}

/// The same directions, where there are any.
fn copied(directions: &Option<Directions>) -> Option<Directions>
    ensures { result ≡ directions.now }
{
    match directions {
        Some(given) => match given.clone() {
            Ok(copy) => Some(copy),
            Err(_) => unreachable!(),
        },
        None => None,
    }
}

/// What a log by these settings is made by.
pub fn wanted_by(settings: &Settings) -> Wanted
    ensures rules { result.rules ≡ settings.now.rules }
    ensures directions { result.directions ≡ settings.now.directions }
{
    Wanted {
        rules: settings.rules,
        directions: copied(&settings.directions),
    }
}

/// Creates the named log, writes it for the blocks of this source and prints its report.
pub fn write_named<H: Shelf, O: Sink, E: Sink, B: Blocks>(
    alloc: Global,
    limits: &Limits,
    name: &str,
    wanted: &Wanted,
    blocks: &mut B,
    shelf: &mut H,
    out: &mut O,
    err: &mut E,
) -> Status
    requires rules { (B.standing blocks.old).rules ≡ wanted.now.rules }
    requires first { (B.standing blocks.old).before ≡ None }
    requires ready { B.ready blocks.old }
    ensures log { Writes name.now (world (H.state shelf.old) (O.state out.old) (E.state err.old))
        (world (H.state shelf.new) (O.state out.new) (E.state err.new))
        (trust_of (H.reliable shelf.new) (O.reliable out.new)) [] limits.now.log
        (most_bytes (is_some wanted.now.directions) (B.standing blocks.old).most
        wanted.now.rules.bisections)
        (λ answer bytes said. IsText (source_of B.gives B.maker wanted.now.directions)
        wanted.now.rules blocks.old blocks.new limits.now.log answer bytes said) result }
    ensures later { (O.state out.old).faults ≤ (O.state out.new).faults }
{
    match shelf.create(name, Slot::Log) {
        Ok(()) => {}
        Err(_) => return say(err, &Notice::LogFault),
    }
    match write_log(alloc, shelf, out, limits.log, wanted, blocks) {
        Ok(()) => Status::Done,
        Err(fault) => say(err, &notice_of_fault(limits.log, fault)),
    }
}
