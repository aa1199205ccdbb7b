//! Logs of rows that are all known.

ghost use Rattle.log_writer.specs.KnownRows.{CanBePaved, GoesOn};
ghost use Rattle.sat_model.specs.Logs.{LogValue};

/// What was written of such rows, block by block, is of one log of them all: where it broke off,
/// the epochs that weren't begun have a run too. A law: it does nothing.
pub fn begun_logs_go_on()
    ensures { (rows : LogValue) → CanBePaved rows → GoesOn rows }
{}
