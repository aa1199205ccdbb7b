//! Where a slot of a shelf in memory stands.

ghost use Rattle.std.specs.Prelude.{◌≡◌, ◌+◌, ◌<◌, ◌^◌};
ghost use Rattle.outer_io.specs.declared.shelf.Phase.{Phase};

use crate::Phase;
use crate::memory_files::FileId;

/// A file, and how many of its bytes were read or written through the slot.
#[derive(Clone, Copy, Debug)]
pub struct Mark {
    pub phase: Phase,
    pub file: FileId,
    pub from: usize,
}

impl Mark {
    /// At the start of the file.
    pub fn at_start(file: FileId, phase: Phase) -> Mark
        ensures { result ≡ record { phase = phase; file = file; from = 0 } }
    {
        Mark {
            phase,
            file,
            from: 0,
        }
    }

    /// The same place, in a slot that is closed.
    pub fn closed(self) -> Mark
        ensures { result ≡ record self { phase = Phase.Closed } }
    {
        Mark {
            phase: Phase::Closed,
            ..self
        }
    }

    /// So many bytes further on.
    pub fn moved(self, count: usize) -> Mark
        requires { self.from + count < 2 ^ 64 }
        ensures { result ≡ record self { from = self.from + count } }
    {
        Mark {
            from: self.from + count,
            ..self
        }
    }
}
