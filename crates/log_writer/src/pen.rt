//! Takes the lines of a log and of its report.

ghost use Rattle.std.specs.Prelude.{◌≡◌, ◌≢◌, ◌<◌, ◌↔◌, ◌∷◌, [], length, Err};
ghost use Rattle.log_writer.specs.Pieces.{piece};
ghost use Rattle.log_writer.specs.Writing.{Seen, Written, Flushed, Trust, Trusts};

use crate::fault::WriteFault;

/// Takes the lines of a log and of its report, gathers them, and sends them on in large pieces.
pub trait Pen {
    /// The devices behind it, what it holds, and how many bytes of the log may still come.
    ghost seen: { Self → Seen };

    /// What is known to be reliable.
    ghost trust: { Self → Trust };

    /// Takes a line of the log whole, where there is room for it, and the report's line of it. An
    /// empty one is none. A line that doesn't fit sends nothing on.
    fn put(&mut self, line: &[u8], report: &[u8]) -> Result<(), WriteFault>
        ensures written { Written (seen self.old) (piece line.now report.now ∷ [])
            result (seen self.new) }
        ensures trust { Trusts (trust self.old) result (trust self.new) }
        ensures full { (result ≡ Err WriteFault.Full) ↔ ((seen self.old).left < length line.now) }
        ensures no_memory_taken { result ≢ Err WriteFault.NoMemory };

    /// Sends on what it holds, the log's lines first.
    fn flush(&mut self) -> Result<(), WriteFault>
        ensures flushed { Flushed (seen self.old) result (seen self.new) }
        ensures trust { Trusts (trust self.old) result (trust self.new) };
}
