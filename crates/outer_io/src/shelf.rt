//! A shelf of named files, which are read and written through six slots.

ghost use Rattle.std.specs.Prelude.{◌≡◌, ◌≤◌, ◌<◌, ℕ, List, length, Option, is_some, is_ok, IfOk};
ghost use Rattle.std.specs.Prelude.{true, false, if◌then◌else◌};
ghost use Rattle.std.specs.Io.{ReadsAtMost};
ghost use Rattle.std.specs.Io.KnownBytes.{ReadConsumes};
ghost use Rattle.outer_io.specs.Causes.{HasCause, HasCauseUnless, SucceedsWhile, SucceedsWhileAnd};
ghost use Rattle.outer_io.specs.Causes.{CountsCall};
ghost use Rattle.outer_io.specs.declared.shelf.Phase.{Phase};
ghost use Rattle.outer_io.specs.Slots.{at};
ghost use Rattle.outer_io.specs.Told.{ShelfState, IsPiece, left_of, is_missing, opened, Begins, Moves};
ghost use Rattle.outer_io.specs.Told.{Creates, Writes};

use crate::{Failed, Slot};

/// What a slot is open for.
#[derive(Clone, Copy, Debug, PartialEq, Eq)]
pub enum Phase {
    Closed,
    Reading,
    Writing,
}

/// A shelf of named files.
///
/// A call that fails changes no file. `begin` and `read` change none at all, and `create` and
/// `write` none but the slot's. No call touches another slot.
pub trait Shelf {
    /// What is seen of it: the files, where each slot stands in them and how many bytes were
    /// written in all, where it tells that; what each slot is open for, and the names that `begin`
    /// and `create` were called for; and how often calls failed.
    ghost state: { Self → ShelfState };

    /// The call of this number is known to fail, where the next call has number 1.
    ghost fails_at: { Self → ℕ → Type 0 };

    /// While this holds after a call, `read` succeeds, and `begin` of a file that isn't missing.
    /// Where it names a log, so do `write`, and `create` of that name.
    ghost reliable: { Self → Option (List ℕ) → Type 0 };

    /// Opens the named file for reading, from its start. A failure closes the slot.
    fn begin(&mut self, name: &str, slot: Slot) -> Result<(), Failed>
        ensures begun { Begins (state self.old) (state self.new) name.now slot result }
        ensures openings { (state self.new).openings ≡ opened slot name.now
            (if is_ok result then Phase.Reading else Phase.Closed) (state self.old).openings }

        // When it fails.
        ensures missing { is_missing (state self.old) name.now ≡ true → is_ok result ≡ false }
        ensures cause { HasCauseUnless (is_missing (state self.old) name.now)
            (state self.old).read_faults (state self.new).read_faults result }
        ensures other { (state self.new).write_faults ≡ (state self.old).write_faults }
        ensures counted { CountsCall (fails_at self.old) (fails_at self.new) result }
        ensures reliable { (log : Option (List ℕ)) → SucceedsWhileAnd
            (reliable self.old log) (reliable self.new log)
            (is_missing (state self.old) name.now ≡ false)
            (state self.old).read_faults (state self.new).read_faults result };

    /// The next bytes of the slot's file: as many as it answers, at the buffer's start. Where the
    /// buffer isn't empty, 0 means the end of the file.
    fn read(&mut self, slot: Slot, buf: &mut [u8]) -> Result<usize, Failed>
        requires { at (state self.old).openings.phases slot ≡ Phase.Reading }
        ensures bound { ReadsAtMost result buf.new }
        ensures bytes { ReadConsumes
            (left_of slot (state self.old)) (left_of slot (state self.new)) result buf.new }
        ensures moves { Moves (state self.old) (state self.new) slot result }
        ensures piece { IfOk result (IsPiece (state self.old)) }
        ensures openings { (state self.new).openings ≡ (state self.old).openings }

        // When it fails.
        ensures cause { HasCause (state self.old).read_faults (state self.new).read_faults result }
        ensures other { (state self.new).write_faults ≡ (state self.old).write_faults }
        ensures counted { CountsCall (fails_at self.old) (fails_at self.new) result }
        ensures reliable { (log : Option (List ℕ)) → SucceedsWhile
            (reliable self.old log) (reliable self.new log)
            (state self.old).read_faults (state self.new).read_faults result };

    /// Makes the named file empty, and opens it for writing. A failure closes the slot.
    fn create(&mut self, name: &str, slot: Slot) -> Result<(), Failed>
        ensures created { Creates (state self.old) (state self.new) name.now slot result }
        ensures openings { (state self.new).openings ≡ opened slot name.now
            (if is_ok result then Phase.Writing else Phase.Closed) (state self.old).openings }

        // When it fails.
        ensures cause { HasCause
            (state self.old).write_faults (state self.new).write_faults result }
        ensures other { (state self.new).read_faults ≡ (state self.old).read_faults }
        ensures counted { CountsCall (fails_at self.old) (fails_at self.new) result }
        ensures reliable { (log : Option (List ℕ)) → SucceedsWhileAnd
            (reliable self.old log) (reliable self.new log) (log ≡ Some name.now)
            (state self.old).write_faults (state self.new).write_faults result };

    /// Appends the first bytes of the piece to the slot's file, as many as it answers. Of a piece
    /// that isn't empty it takes at least one.
    fn write(&mut self, slot: Slot, bytes: &[u8]) -> Result<usize, Failed>
        requires { at (state self.old).openings.phases slot ≡ Phase.Writing }
        ensures bound { IfOk result (λ k. k ≤ length bytes.now) }
        ensures some { 0 < length bytes.now → IfOk result (λ k. 0 < k) }
        ensures appended { Writes (state self.old) (state self.new) slot result bytes.now }
        ensures piece { IfOk result (IsPiece (state self.old)) }
        ensures openings { (state self.new).openings ≡ (state self.old).openings }

        // When it fails.
        ensures cause { HasCause
            (state self.old).write_faults (state self.new).write_faults result }
        ensures other { (state self.new).read_faults ≡ (state self.old).read_faults }
        ensures counted { CountsCall (fails_at self.old) (fails_at self.new) result }
        ensures reliable { (log : Option (List ℕ)) → SucceedsWhileAnd
            (reliable self.old log) (reliable self.new log) (is_some log ≡ true)
            (state self.old).write_faults (state self.new).write_faults result };
}
