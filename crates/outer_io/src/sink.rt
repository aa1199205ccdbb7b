//! A sink, which bytes go into.

ghost use Rattle.std.specs.Prelude.{◌≤◌, ◌<◌, ℕ, length, IfOk};
ghost use Rattle.outer_io.specs.Causes.{HasCause, SucceedsWhile, CountsCall};
ghost use Rattle.outer_io.specs.Taken.{SinkState, Receives};

use crate::Failed;

/// A sink for bytes.
pub trait Sink {
    /// What is seen of it: the bytes that it has taken, where it tells them, and how often `write`
    /// has failed.
    ghost state: { Self → SinkState };

    /// The `write` of this number is known to fail, where the next one has number 1.
    ghost fails_at: { Self → ℕ → Type 0 };

    /// While this holds after a `write`, the `write` succeeds.
    ghost reliable: { Self → Type 0 };

    /// Takes the first bytes of the piece, as many as it answers. Of a piece that isn't empty it
    /// takes at least one. A failed call takes nothing.
    fn write(&mut self, bytes: &[u8]) -> Result<usize, Failed>
        ensures bound { IfOk result (λ k. k ≤ length bytes.now) }
        ensures some { 0 < length bytes.now → IfOk result (λ k. 0 < k) }
        ensures appended { Receives (state self.old) (state self.new) result bytes.now }

        // When it fails.
        ensures cause { HasCause (state self.old).faults (state self.new).faults result }
        ensures counted { CountsCall (fails_at self.old) (fails_at self.new) result }
        ensures reliable { SucceedsWhile (reliable self.old) (reliable self.new)
            (state self.old).faults (state self.new).faults result };
}
