//! The files that `guard` reads.

ghost use Rattle.std.specs.Prelude.{IfOk};
ghost use Rattle.command_words.specs.Seen.{files_asked};
ghost use Rattle.cover_run.specs.Checking.{AreReady};
ghost use Rattle.cover_run.specs.Guarding.{ReadsGuarded, guarded_files, guarded_value};
ghost use Rattle.input_files.specs.Motion.{HasMotion, speed_of};
ghost use Rattle.input_files.specs.Reading.{Found, OnlyReads, valued};

use crate::checked::Checked;
use command_words::Files;
use input_files::{Limits, LogText, Notice, ZonesText, read_inputs, read_named};
use outer_io::Shelf;
use std::alloc::Global;
use zone_guard::Watches;

/// A log, what is read from the files of a receiver, and zones.
#[derive(Drop)]
pub struct Guarded {
    pub checked: Checked,
    pub zones: Watches,
}

/// Reads the files of a receiver, which may be one that moves, then the zones and then the log.
pub fn read_guarded<H: Shelf>(
    alloc: Global,
    limits: &Limits,
    words: &Files<'_>,
    zones: &str,
    moving: bool,
    shelf: &mut H,
) -> Result<Guarded, Notice>
    ensures found { Found (ReadsGuarded moving limits.now (files_asked words.now) zones.now)
        (H.state shelf.old) (H.state shelf.new) (H.reliable shelf.new)
        (valued guarded_value result) }
    ensures only { OnlyReads (guarded_files (files_asked words.now) zones.now)
        (H.state shelf.old) (H.state shelf.new) result }
    ensures ready { IfOk result (λ found. AreReady found.checked) }
    ensures motion { IfOk result
        (λ found. HasMotion moving (speed_of found.checked.inputs.settings)) }
{
    let inputs = read_inputs(alloc, limits, words, moving, shelf)?;
    let watches = read_named(alloc, limits, zones, &ZonesText, shelf)?;
    let log = read_named(alloc, limits, words.log, &LogText, shelf)?;
    Ok(Guarded {
        checked: Checked { inputs, log },
        zones: watches,
    })
}
