//! The files that a log is checked against, and the log.

ghost use Rattle.std.specs.Prelude.{IfOk};
ghost use Rattle.command_words.specs.Seen.{files_asked};
ghost use Rattle.cover_run.specs.Checking.{AreReady, ReadsCheckedFor, checked_files, checked_value};
ghost use Rattle.input_files.specs.Motion.{HasMotion, speed_of};
ghost use Rattle.input_files.specs.Reading.{Found, OnlyReads, valued};

use command_words::Files;
use input_files::{Inputs, Limits, LogText, Notice, read_inputs, read_named};
use outer_io::Shelf;
use paving_log::Log;
use std::alloc::Global;

/// A log, and what is read from the files of a receiver.
#[derive(Drop)]
pub struct Checked {
    pub inputs: Inputs,
    pub log: Log,
}

/// Reads the files of a receiver, which may be one that moves, and then the log.
pub fn read_checked<H: Shelf>(
    alloc: Global,
    limits: &Limits,
    words: &Files<'_>,
    moving: bool,
    shelf: &mut H,
) -> Result<Checked, Notice>
    ensures found { Found (ReadsCheckedFor moving limits.now (files_asked words.now))
        (H.state shelf.old) (H.state shelf.new) (H.reliable shelf.new)
        (valued checked_value result) }
    ensures only { OnlyReads (checked_files (files_asked words.now))
        (H.state shelf.old) (H.state shelf.new) result }
    ensures ready { IfOk result AreReady }
    ensures motion { IfOk result (λ found. HasMotion moving (speed_of found.inputs.settings)) }
{
    let inputs = read_inputs(alloc, limits, words, moving, shelf)?;
    let log = read_named(alloc, limits, words.log, &LogText, shelf)?;
    Ok(Checked { inputs, log })
}
